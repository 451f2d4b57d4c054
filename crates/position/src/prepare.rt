// Step 0: diagonal and residual of every row, 7, 8 and 9 judged row by row, or 7 of all rows first.
ghost use Rattle.std.specs.Prelude.{◌≡◌, cond, true, false, [], ◌∷◌, ◌+◌, ◌*◌, ◌<◌, ◌≤◌, length};
ghost use Rattle.loops.specs.Run.{going, next, check};
ghost use Rattle.loops.specs.Judge.{judge};
ghost use Rattle.loops.specs.Every.{every};
ghost use Rattle.loops.specs.Cleared.{plus_zero, Free};
ghost use Rattle.kapitsa_joint.specs.Row.{row_of};
ghost use Rattle.kapitsa_joint.specs.Mass.{mass_of};
ghost use Rattle.kapitsa_joint.specs.Table.{table_of, tolerances_in};
ghost use Rattle.joint_refusals.specs.Refusals.{is_valid_of};
ghost use Rattle.mass_operator.specs.Flat.{coefficients};
ghost use Rattle.position.specs.Problem.{started_problem};
ghost use Rattle.position.specs.Prepare.{one, row_diagonal, passes8, is_low, passes9, row_judged, prepared_diagonal, prepared_residual};
ghost use Rattle.position.specs.Answers.{row_out, BegunHeld};

use joint_refusals::{is_valid_at, rows_valid};
use kapitsa_joint::{ConstraintRow, mass_at, row_at};
use loops::wide;
use pairs::cross_value;
use refusals::Refusal;

#[derive(Clone, Copy, Debug)]
pub struct PreparedRow {
    pub diagonal: f64,
    pub residual: f64,
}

// Both bodies' SolverMass::diagonal, tested where the row is judged.
fn row_diagonal(masses: &[f64], row: ConstraintRow) -> f64
    requires { (10 * row.words.body_a + 10 ≤ length masses.now) × (10 * row.words.body_b + 10 ≤ length masses.now) }
    ensures { result ≡ row_diagonal (mass_of masses.now) row }
{
    let words = row.words;
    let linear_a = row.linear_a;
    let angular_a = row.angular_a;
    let linear_b = row.linear_b;
    let angular_b = row.angular_b;
    let a = mass_at(masses, wide(words.body_a));
    let b = mass_at(masses, wide(words.body_b));
    cross_value(a, linear_a, angular_a, linear_a, angular_a)
        + cross_value(b, linear_b, angular_b, linear_b, angular_b)
}

// 8 and 9 of a row, and its numbers.
fn judge_diagonal(diagonal: f64, residual: f64, tolerance: f64) -> Result<PreparedRow, Refusal>
    ensures { next (judge ((8, passes8 diagonal) ∷ ((9, passes9 diagonal residual tolerance) ∷ []))) (λ _. going (cond (is_low diagonal) one diagonal, cond (is_low diagonal) plus_zero residual)) ≡ row_out result }
{
    if !binary64::is_finite(diagonal) {
        return Err(Refusal::Diagonal);
    }
    if diagonal <= binary64::MIN_POSITIVE {
        if tolerance < binary64::abs(residual) {
            return Err(Refusal::Immovable);
        }
        return Ok(PreparedRow {
            diagonal: 1.0,
            residual: 0.0,
        });
    }
    Ok(PreparedRow { diagonal, residual })
}

fn prepare_row(
    numbers: &[f64],
    words: &[u32],
    masses: &[f64],
    rows: usize,
    bodies: u32,
    tolerances: &[f64],
    residual: f64,
    i: usize,
) -> Result<PreparedRow, Refusal>
    requires { (27 * rows ≤ length numbers.now) × (8 * rows ≤ length words.now) × (10 * bodies ≤ length masses.now) × (rows ≤ length tolerances.now) × (i < rows) }
    ensures { next (row_judged (started_problem false (table_of rows bodies numbers.now words.now masses.now) (tolerances_in tolerances.now) (λ _. residual)) i)
        (λ _. going (prepared_diagonal (table_of rows bodies numbers.now words.now masses.now) i, prepared_residual (table_of rows bodies numbers.now words.now masses.now) (λ _. residual) i)) ≡ row_out result }
{
    if !is_valid_at(numbers, words, i, bodies) {
        return Err(Refusal::Row);
    }
    let row = row_at(numbers, words, i);
    judge_diagonal(row_diagonal(masses, row), residual, tolerances[i])
}

// 7 of all rows, where it comes before any 8 and 9: true where it does not apply.
fn valid_before(valid_first: bool, numbers: &[f64], words: &[u32], rows: usize, bodies: u32) -> bool
    requires { (27 * rows ≤ length numbers.now) × (8 * rows ≤ length words.now) }
    ensures { result ≡ check valid_first (every (λ i. is_valid_of bodies (row_of numbers.now words.now i)) rows) true }
{
    if !valid_first {
        return true;
    }
    rows_valid(numbers, words, rows, bodies)
}

// Diagonal and residual of step 0, from the starting residual that stands there. After a refusal both are left free.
pub fn begin(
    valid_first: bool,
    numbers: &[f64],
    words: &[u32],
    masses: &[f64],
    bodies: u32,
    tolerances: &[f64],
    diagonal: &mut [f64],
    residual: &mut [f64],
) -> Result<(), Refusal>
    requires { (27 * length diagonal.old ≤ length numbers.now) × (8 * length diagonal.old ≤ length words.now) × (10 * bodies ≤ length masses.now) × (length tolerances.now ≡ length diagonal.old) × (length residual.old ≡ length diagonal.old) }
    ensures begun_held { BegunHeld (started_problem valid_first (table_of (length diagonal.old) bodies numbers.now words.now masses.now) (tolerances_in tolerances.now) (coefficients residual.old)) result diagonal.new residual.new }
    ensures free { Free diagonal.old diagonal.new × Free residual.old residual.new }
{
    let rows = diagonal.len();
    if !valid_before(valid_first, numbers, words, rows, bodies) {
        return Err(Refusal::Row);
    }
    for i in 0..rows {
        let row = prepare_row(
            numbers,
            words,
            masses,
            rows,
            bodies,
            tolerances,
            residual[i],
            i,
        )?;
        diagonal[i] = row.diagonal;
        residual[i] = row.residual;
    }
    Ok(())
}
