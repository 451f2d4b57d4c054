// inverse_spd of solver_mass.rs: three unit vectors by columns, not made symmetric. Refusals 21, 22, 23 and 12, judged in this order.
ghost use Rattle.std.specs.Prelude.{◌≡◌};
ghost use Rattle.inertia.specs.Inverse.{inverse_run, columns_run};
ghost use Rattle.inertia.specs.Answers.{cholesky_out};
ghost use Rattle.inertia.specs.MinusZero.{InverseMeaning};

use crate::factor::factor_spd;
use crate::substitution::solve;
use crate::triangle::{Cholesky3, CholeskyError};
use kapitsa_math::{Mat3, Vec3};

const X: Vec3 = Vec3 {
    x: 1.0,
    y: 0.0,
    z: 0.0,
};

const Y: Vec3 = Vec3 {
    x: 0.0,
    y: 1.0,
    z: 0.0,
};

const Z: Vec3 = Vec3 {
    x: 0.0,
    y: 0.0,
    z: 1.0,
};

#[tactic(auto, unfolding(crate::specs::Inverse::columns_run, loops::specs::Run::on))]
fn columns(f: Cholesky3) -> Result<Mat3, CholeskyError>
    ensures { columns_run f ≡ cholesky_out result }
{
    let x = solve(f, X)?;
    let y = solve(f, Y)?;
    let z = solve(f, Z)?;
    Ok(Mat3 { x: x, y: y, z: z })
}

pub fn inverse_spd(m: Mat3) -> Result<Mat3, CholeskyError>
    ensures m_value { inverse_run m ≡ cholesky_out result }
    ensures inverse_meaning { InverseMeaning result }
{
    columns(factor_spd(m)?)
}
