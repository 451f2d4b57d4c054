// What is told of a residual: whether it meets every row's tolerance, and its maxima.
ghost use Rattle.std.specs.Prelude.{◌≡◌, ◌+◌, ◌*◌, ◌≤◌, length, get_or};
ghost use Rattle.std.specs.Float.{nan};
ghost use Rattle.std.specs.Float.Ieee.{le};
ghost use Rattle.binary64.specs.Order.{absolute};
ghost use Rattle.kapitsa_joint.specs.Tolerance.{dimension_of};
ghost use Rattle.kapitsa_joint.specs.Table.{tolerances_in};
ghost use Rattle.position.specs.Residual.{meets_of, maxima_of};

use kapitsa_joint::{Maxima, dimension};

fn row_converged(tolerances: &[f64], residual: &[f64], i: usize) -> bool
    requires { (i + 1 ≤ length tolerances.now) × (i + 1 ≤ length residual.now) }
    ensures { result ≡ le (absolute (get_or residual.now i nan)) (tolerances_in tolerances.now i) }
{
    binary64::abs(residual[i]) <= tolerances[i]
}

pub fn position_vector_converged(tolerances: &[f64], residual: &[f64]) -> bool
    requires { length residual.now ≤ length tolerances.now }
    ensures { result ≡ meets_of (tolerances_in tolerances.now) residual.now (length residual.now) }
{
    (0..residual.len()).all(|i| row_converged(tolerances, residual, i))
}

// position_pcg_result of pcg.rs: its two maxima.
pub fn residual_maxima(words: &[u32], residual: &[f64]) -> Maxima
    requires { 8 * length residual.now ≤ length words.now }
    ensures { result ≡ maxima_of (λ i. dimension_of (get_or words.now (8 * i + 1) 0)) residual.now (length residual.now) }
{
    let mut maxima = Maxima {
        linear: 0.0,
        angular: 0.0,
    };
    for i in 0..residual.len() {
        maxima = maxima.raised(dimension(words[8 * i + 1]), binary64::abs(residual[i]));
    }
    maxima
}
