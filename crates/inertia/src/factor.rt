// Mat3::factor_spd of matrix.rs. Refusals 21, 22 and 23, judged in this order.
ghost use Rattle.std.specs.Prelude.{◌≡◌};
ghost use Rattle.inertia.specs.Factor.{factor_run};
ghost use Rattle.inertia.specs.Answers.{cholesky_out};
ghost use Rattle.inertia.specs.Meaning.{FactorMeaning};

use crate::divided::{divided, scale_of, symmetric};
use crate::triangle::{Cholesky3, CholeskyError, triangle};
use kapitsa_math::Mat3;

// The Rust tests the scale before the symmetry. The numbers of a matrix of zeros, divided by it, are NaNs, and no two differ by more than the tolerance: it passes 22 and meets 23 either way.
pub fn factor_spd(m: Mat3) -> Result<Cholesky3, CholeskyError>
    ensures m_value { factor_run m ≡ cholesky_out result }
    ensures factor_meaning { FactorMeaning result }
{
    if !m.is_finite() {
        return Err(CholeskyError::NonFiniteInput);
    }
    let scale = scale_of(m);
    let n = divided(m, scale);
    if !symmetric(n) {
        return Err(CholeskyError::NotSymmetric);
    }
    if scale == 0.0 {
        return Err(CholeskyError::NotPositiveDefinite);
    }
    triangle(n, scale)
}
