// The second half of factor_spd of matrix.rs: the lower triangle of the divided numbers, row by row.
ghost use Rattle.std.specs.Prelude.{◌≡◌};
ghost use Rattle.inertia.specs.Triangle.{pivot_run, first_run, second_run, third_run, triangle_run};
ghost use Rattle.inertia.specs.Answers.{number_of, accepted_out, cholesky_out};
ghost use Rattle.inertia.specs.Meaning.{PivotTells, RowTells, FirstMeaning, SecondMeaning, ThirdMeaning, TriangleTells};

use kapitsa_math::{Mat3, Vec3};

// CholeskyError of matrix.rs. Document 02 c's numbers are 21, 22, 23 and 12.
#[derive(Clone, Copy, Debug, PartialEq, Eq)]
pub enum CholeskyError {
    NonFiniteInput,
    NotSymmetric,
    NotPositiveDefinite,
    ResultOutOfRange,
}

impl CholeskyError {
    pub fn number(self) -> u32
        ensures { result ≡ number_of self }
    {
        match self {
            CholeskyError::NonFiniteInput => 21,
            CholeskyError::NotSymmetric => 22,
            CholeskyError::NotPositiveDefinite => 23,
            CholeskyError::ResultOutOfRange => 12,
        }
    }
}

// Cholesky3 of matrix.rs: the lower triangle of the divided matrix, as three rows of three with +0.0 above the diagonal, and the scale.
#[derive(Clone, Copy)]
pub struct Cholesky3 {
    pub first: Vec3,
    pub second: Vec3,
    pub third: Vec3,
    pub scale: f64,
}

// The root of a pivot that is finite and above zero.
fn pivot(value: f64) -> Option<f64>
    ensures value_value { pivot_run value ≡ accepted_out result }
    ensures pivot_tells { PivotTells value result }
{
    if !binary64::is_finite(value) {
        return None;
    }
    if value <= 0.0 {
        return None;
    }
    binary64::root(value).ok()
}

fn first_row(n: Mat3) -> Option<Vec3>
    ensures n_value { first_run n ≡ accepted_out result }
    ensures row_tells { RowTells FirstMeaning result }
{
    let column = n.x;
    let p = pivot(column.x - 0.0)?;
    Some(Vec3 {
        x: p,
        y: 0.0,
        z: 0.0,
    })
}

fn second_row(n: Mat3, first: Vec3) -> Option<Vec3>
    ensures first_value { second_run n first ≡ accepted_out result }
    ensures row_tells { RowTells SecondMeaning result }
{
    let column = n.x;
    let diagonal = n.y;
    let x = (column.y - 0.0) / first.x;
    let p = pivot(diagonal.y - (0.0 + x * x))?;
    Some(Vec3 { x: x, y: p, z: 0.0 })
}

fn third_row(n: Mat3, first: Vec3, second: Vec3) -> Option<Vec3>
    ensures second_value { third_run n first second ≡ accepted_out result }
    ensures row_tells { RowTells ThirdMeaning result }
{
    let column = n.x;
    let next = n.y;
    let diagonal = n.z;
    let x = (column.z - 0.0) / first.x;
    let y = (next.z - (0.0 + x * second.x)) / second.y;
    let p = pivot(diagonal.z - (0.0 + x * x + y * y))?;
    Some(Vec3 { x: x, y: y, z: p })
}

// The triangle of the divided numbers `n`.
pub fn triangle(n: Mat3, scale: f64) -> Result<Cholesky3, CholeskyError>
    ensures scale_value { triangle_run n scale ≡ cholesky_out result }
    ensures triangle_tells { TriangleTells result }
{
    let Some(first) = first_row(n) else {
        return Err(CholeskyError::NotPositiveDefinite);
    };
    let Some(second) = second_row(n, first) else {
        return Err(CholeskyError::NotPositiveDefinite);
    };
    let Some(third) = third_row(n, first, second) else {
        return Err(CholeskyError::NotPositiveDefinite);
    };
    Ok(Cholesky3 {
        first: first,
        second: second,
        third: third,
        scale: scale,
    })
}
