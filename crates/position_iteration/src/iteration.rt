// The loop over the steps.
ghost use Rattle.std.specs.Prelude.{◌≡◌, ◌*◌, length};
ghost use Rattle.loops.specs.Run.{turns};
ghost use Rattle.steps.specs.Solve.{turn, after_loop};
ghost use Rattle.position_iteration.specs.Standing.{Standing, steps_in, iterated_out, StepsFree};

use crate::turn::take_step;
use preconditioner::Preconditioner;
use refusals::Refusal;

// The steps up to the limit. The answer is the number of the step that met, or None at the limit. The step counted stands in `pending` and `residual`; after a refusal all that is written is left free.
pub fn iterate(
    tolerances: &[f64],
    preconditioner: Preconditioner,
    masses: &[f64],
    bodies: usize,
    jacobians: &[f64],
    links: &[u32],
    diagonal: &[f64],
    pattern: &[u32],
    order: &[u32],
    values: &[f64],
    residual_product: f64,
    limit: u32,
    body_impulses: &mut [f64],
    product: &mut [f64],
    pending: &mut [f64],
    residual: &mut [f64],
    direction: &mut [f64],
) -> Result<Option<u32>, Refusal>
    requires standing { Standing preconditioner (length tolerances.now) bodies tolerances.now masses.now jacobians.now links.now record { diagonal = diagonal.now; pattern = pattern.now; order = order.now; values = values.now } }
    requires body_impulses_len { (length body_impulses.old ≡ 6 * bodies) × (length product.old ≡ length tolerances.now) × (length pending.old ≡ length tolerances.now) × (length residual.old ≡ length tolerances.now) × (length direction.old ≡ length tolerances.now) }
    ensures limit_value { after_loop limit (turns (turn (steps_in preconditioner (length tolerances.now) bodies tolerances.now masses.now jacobians.now links.now record { diagonal = diagonal.entry.now; pattern = pattern.now; order = order.now; values = values.now })) (record { solution = pending.old; residual = residual.old }, record { direction = direction.entry.now; s = residual_product }) limit) ≡ iterated_out result limit pending.new residual.new }
    ensures steps_free { StepsFree body_impulses.old product.old pending.old residual.old direction.old body_impulses.new product.new pending.new residual.new direction.new }
{
    let mut s = residual_product;
    for k in 0..limit {
        let Some(next) = take_step(
            tolerances,
            preconditioner,
            masses,
            bodies,
            jacobians,
            links,
            diagonal,
            pattern,
            order,
            values,
            s,
            body_impulses,
            product,
            pending,
            residual,
            direction,
        )?
        else {
            return Ok(Some(k + 1));
        };
        s = next;
    }
    Ok(None)
}
