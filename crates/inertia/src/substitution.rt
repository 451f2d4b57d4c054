// Cholesky3::solve of matrix.rs: total for any Cholesky3, whoever made it. Refusals 21 and 12.
ghost use Rattle.std.specs.Prelude.{◌≡◌};
ghost use Rattle.inertia.specs.Solve.{forward_of, backward_of, solve_run};
ghost use Rattle.inertia.specs.Answers.{cholesky_out};

use crate::divided::divided_vec;
use crate::triangle::{Cholesky3, CholeskyError};
use kapitsa_math::Vec3;

fn forward(f: Cholesky3, b: Vec3) -> Vec3
    ensures { result ≡ forward_of f b }
{
    let first = f.first;
    let second = f.second;
    let third = f.third;
    let x = b.x / first.x;
    let y = (b.y - second.x * x) / second.y;
    let z = (b.z - third.x * x - third.y * y) / third.z;
    Vec3 { x: x, y: y, z: z }
}

fn backward(f: Cholesky3, v: Vec3) -> Vec3
    ensures { result ≡ backward_of f v }
{
    let first = f.first;
    let second = f.second;
    let third = f.third;
    let z = v.z / third.z;
    let y = (v.y - third.y * z) / second.y;
    let x = (v.x - second.x * y - third.x * z) / first.x;
    Vec3 { x: x, y: y, z: z }
}

pub fn solve(f: Cholesky3, rhs: Vec3) -> Result<Vec3, CholeskyError>
    ensures { solve_run f rhs ≡ cholesky_out result }
{
    if !rhs.is_finite() {
        return Err(CholeskyError::NonFiniteInput);
    }
    let b = divided_vec(rhs, f.scale);
    if !b.is_finite() {
        return Err(CholeskyError::ResultOutOfRange);
    }
    let solution = backward(f, forward(f, b));
    if !solution.is_finite() {
        return Err(CholeskyError::ResultOutOfRange);
    }
    Ok(solution)
}
