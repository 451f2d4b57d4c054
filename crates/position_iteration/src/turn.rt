// One turn of the loop: a step's length, the step, and where it misses z, s and direction anew. The answer is the new s, or None where the step meets.
// A residual that is not finite makes s so, and that is refused; where the step meets, by a tolerance that is infinite, it has a test of its own.
ghost use Rattle.std.specs.Prelude.{◌≡◌, ◌*◌, length};
ghost use Rattle.preconditioner.specs.Held.{Ready};
ghost use Rattle.position_iteration.specs.Standing.{Standing, steps_in, steps_along, diagonal_steps_along, TurnIs};

use mass_operator::all_finite;
use position::position_vector_converged;
use preconditioner::Preconditioner;
use recurrence::{advance, advance_diagonal, next_direction, renew, step_length};
use refusals::Refusal;

// A step of length alpha along the direction, with a factor: z and s are made where it misses. The product gives way to z.
fn take_factor_step(
    alpha: f64,
    tolerances: &[f64],
    preconditioner: Preconditioner,
    diagonal: &[f64],
    pattern: &[u32],
    order: &[u32],
    values: &[f64],
    residual_product: f64,
    product: &mut [f64],
    pending: &mut [f64],
    residual: &mut [f64],
    direction: &mut [f64],
) -> Result<Option<f64>, Refusal>
    requires ready { Ready preconditioner (length tolerances.now) record { diagonal = diagonal.now; pattern = pattern.now; order = order.now; values = values.now } }
    requires product_len { (length product.old ≡ length tolerances.now) × (length pending.old ≡ length tolerances.now) × (length residual.old ≡ length tolerances.now) × (length direction.old ≡ length tolerances.now) }
    ensures { TurnIs (steps_along preconditioner (length tolerances.now) tolerances.now record { diagonal = diagonal.entry.now; pattern = pattern.now; order = order.now; values = values.now } product.old alpha) (record { solution = pending.old; residual = residual.old }, record { direction = direction.entry.now; s = residual_product }) result pending.new residual.new direction.exit.now }
{
    advance(alpha, direction, product, pending, residual)?;
    if position_vector_converged(tolerances, residual) {
        if !all_finite(residual) {
            return Err(Refusal::Step);
        }
        return Ok(None);
    }
    let s = renew(
        preconditioner,
        diagonal,
        pattern,
        order,
        values,
        residual,
        residual_product,
        product,
        direction,
    )?;
    Ok(Some(s))
}

// The same in mode 0: z and s come with the step.
fn take_diagonal_step(
    alpha: f64,
    tolerances: &[f64],
    diagonal: &[f64],
    residual_product: f64,
    product: &mut [f64],
    pending: &mut [f64],
    residual: &mut [f64],
    direction: &mut [f64],
) -> Result<Option<f64>, Refusal>
    requires { (length diagonal.now ≡ length tolerances.now) × (length product.old ≡ length tolerances.now) × (length pending.old ≡ length tolerances.now) × (length residual.old ≡ length tolerances.now) × (length direction.old ≡ length tolerances.now) }
    ensures { TurnIs (diagonal_steps_along (length tolerances.now) tolerances.now diagonal.now product.old alpha) (record { solution = pending.old; residual = residual.old }, record { direction = direction.entry.now; s = residual_product }) result pending.new residual.new direction.exit.now }
{
    let next = advance_diagonal(alpha, direction, diagonal, product, pending, residual)?;
    if position_vector_converged(tolerances, residual) {
        if !all_finite(residual) {
            return Err(Refusal::Step);
        }
        return Ok(None);
    }
    let s = next_direction(next, residual_product, product, direction)?;
    Ok(Some(s))
}

pub fn take_step(
    tolerances: &[f64],
    preconditioner: Preconditioner,
    masses: &[f64],
    bodies: usize,
    jacobians: &[f64],
    links: &[u32],
    diagonal: &[f64],
    pattern: &[u32],
    order: &[u32],
    values: &[f64],
    residual_product: f64,
    body_impulses: &mut [f64],
    product: &mut [f64],
    pending: &mut [f64],
    residual: &mut [f64],
    direction: &mut [f64],
) -> Result<Option<f64>, Refusal>
    requires standing { Standing preconditioner (length tolerances.now) bodies tolerances.now masses.now jacobians.now links.now record { diagonal = diagonal.now; pattern = pattern.now; order = order.now; values = values.now } }
    requires body_impulses_len { (length body_impulses.old ≡ 6 * bodies) × (length product.old ≡ length tolerances.now) × (length pending.old ≡ length tolerances.now) × (length residual.old ≡ length tolerances.now) × (length direction.old ≡ length tolerances.now) }
    ensures { TurnIs (steps_in preconditioner (length tolerances.now) bodies tolerances.now masses.now jacobians.now links.now record { diagonal = diagonal.entry.now; pattern = pattern.now; order = order.now; values = values.now }) (record { solution = pending.old; residual = residual.old }, record { direction = direction.entry.now; s = residual_product }) result pending.new residual.new direction.exit.now }
{
    let alpha = step_length(
        jacobians,
        links,
        masses,
        bodies,
        direction,
        residual_product,
        body_impulses,
        product,
    )?;
    if let Preconditioner::Diagonal = preconditioner {
        return take_diagonal_step(
            alpha,
            tolerances,
            diagonal,
            residual_product,
            product,
            pending,
            residual,
            direction,
        );
    }
    take_factor_step(
        alpha,
        tolerances,
        preconditioner,
        diagonal,
        pattern,
        order,
        values,
        residual_product,
        product,
        pending,
        residual,
        direction,
    )
}
