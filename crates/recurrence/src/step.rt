// A step along its direction: the updates of solution and residual. Of the two the solution alone is tested here: a residual that is not finite is refused by what follows (proofs/Residual.antt).
ghost use Rattle.std.specs.Prelude.{◌≡◌, length};
ghost use Rattle.recurrence.specs.Parts.{moved_of};
ghost use Rattle.recurrence.specs.Answers.{advanced_out, AdvanceLeft};

use crate::vector::{scaled_add, scaled_subtract};
use refusals::Refusal;

// Refused where the solution is not finite: solution and residual are then left free.
pub fn advance(
    alpha: f64,
    direction: &[f64],
    product: &[f64],
    solution: &mut [f64],
    residual: &mut [f64],
) -> Result<(), Refusal>
    requires { (length direction.now ≡ length solution.old) × (length product.now ≡ length residual.old) }
    ensures alpha_value { moved_of record { solution = solution.entry.now; residual = residual.old } direction.now product.now alpha
        ≡ advanced_out result solution.exit.now residual.new }
    ensures advance_left { AdvanceLeft solution.old solution.new residual.old residual.new }
{
    if !scaled_add(solution, alpha, direction) {
        return Err(Refusal::Step);
    }
    scaled_subtract(residual, alpha, product);
    Ok(())
}
