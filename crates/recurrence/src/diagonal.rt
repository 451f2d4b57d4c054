// A step of mode 0. Its z is the residual by the diagonal, so solution, residual, z and s = residual · z are made in one pass over the rows. z takes the place of the product.
// Of these the solution alone is tested: where a residual is not finite, neither is s (proofs/Residual.antt).
ghost use Rattle.std.specs.Prelude.{◌≡◌, ◌+◌, ◌<◌, length};
ghost use Rattle.loops.specs.Run.{going, next};
ghost use Rattle.loops.specs.Judge.{test};
ghost use Rattle.recurrence.specs.Parts.{moved_of, with_diagonal};
ghost use Rattle.recurrence.specs.Pass.{row_of, pass_out};
ghost use Rattle.recurrence.specs.Answers.{diagonal_out, DiagonalLeft};
ghost use Rattle.refusals.specs.Told.{told};

use refusals::Refusal;

// Of the rows passed: whether their solution is finite, and their share of s.
#[derive(Clone, Copy)]
pub struct Passed {
    pub all: bool,
    pub sum: f64,
}

#[tactic(auto, unfolding(crate::specs::Pass::row_of))]
fn update_row(
    solution: &mut [f64],
    residual: &mut [f64],
    product: &mut [f64],
    alpha: f64,
    direction: &[f64],
    diagonal: &[f64],
    i: usize,
    before: Passed,
) -> Passed
    requires { (i < length solution.old) × (i < length residual.old) × (i < length product.old) × (i < length direction.now) × (i < length diagonal.now) }
    ensures { row_of alpha direction.now diagonal.now i (pass_out before solution.old residual.old product.old)
        ≡ pass_out result solution.new residual.new product.new }
{
    let x = solution[i] + alpha * direction[i];
    let r = residual[i] - alpha * product[i];
    let z = r / diagonal[i];
    solution[i] = x;
    residual[i] = r;
    product[i] = z;
    Passed {
        all: before.all & binary64::is_finite(x),
        sum: before.sum + r * z,
    }
}

// Rows i and i + 1. Both are read before one is written, so that the machine makes their numbers together, two by one division.
#[tactic(auto, unfolding(crate::specs::Pass::row_of))]
fn update_two(
    solution: &mut [f64],
    residual: &mut [f64],
    product: &mut [f64],
    alpha: f64,
    direction: &[f64],
    diagonal: &[f64],
    i: usize,
    before: Passed,
) -> Passed
    requires { (i + 1 < length solution.old) × (i + 1 < length residual.old) × (i + 1 < length product.old) × (i + 1 < length direction.now) × (i + 1 < length diagonal.now) }
    ensures { row_of alpha direction.now diagonal.now (i + 1) (row_of alpha direction.now diagonal.now i (pass_out before solution.old residual.old product.old))
        ≡ pass_out result solution.new residual.new product.new }
{
    let j = i + 1;
    let x0 = solution[i] + alpha * direction[i];
    let x1 = solution[j] + alpha * direction[j];
    let r0 = residual[i] - alpha * product[i];
    let r1 = residual[j] - alpha * product[j];
    let z0 = r0 / diagonal[i];
    let z1 = r1 / diagonal[j];
    solution[i] = x0;
    solution[j] = x1;
    residual[i] = r0;
    residual[j] = r1;
    product[i] = z0;
    product[j] = z1;
    Passed {
        all: before.all & binary64::is_finite(x0) & binary64::is_finite(x1),
        sum: before.sum + r0 * z0 + r1 * z1,
    }
}

// s, once all rows are passed.
fn passed_product(passed: Passed) -> Result<f64, Refusal>
    ensures { next (test passed.all 16) (λ _. going passed.sum) ≡ told result }
{
    if !passed.all {
        return Err(Refusal::Step);
    }
    Ok(passed.sum)
}

// The answer is the new s, not tested yet. After a refusal solution, residual and product are left free.
pub fn advance_diagonal(
    alpha: f64,
    direction: &[f64],
    diagonal: &[f64],
    product: &mut [f64],
    solution: &mut [f64],
    residual: &mut [f64],
) -> Result<f64, Refusal>
    requires { (length residual.old ≡ length solution.old) × (length product.old ≡ length solution.old) × (length direction.now ≡ length solution.old) × (length diagonal.now ≡ length solution.old) }
    ensures diagonal_value { next (moved_of record { solution = solution.entry.now; residual = residual.old } direction.now product.old alpha) (with_diagonal diagonal.now)
        ≡ diagonal_out result solution.exit.now residual.new product.new }
    ensures diagonal_left { DiagonalLeft product.old product.new solution.old solution.new residual.old residual.new }
{
    let n = solution.len();
    let mut passed = Passed {
        all: true,
        sum: 0.0,
    };
    for pair in 0..n / 2 {
        passed = update_two(
            solution,
            residual,
            product,
            alpha,
            direction,
            diagonal,
            2 * pair,
            passed,
        );
    }
    if n % 2 == 1 {
        let last = update_row(
            solution,
            residual,
            product,
            alpha,
            direction,
            diagonal,
            n - 1,
            passed,
        );
        return passed_product(last);
    }
    passed_product(passed)
}
