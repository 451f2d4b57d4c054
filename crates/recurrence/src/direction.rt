// z and s made from a residual, and the direction from them. The answer is s.
ghost use Rattle.std.specs.Prelude.{◌≡◌, ◌+◌, ◌*◌, ◌≤◌, length};
ghost use Rattle.loops.specs.Run.{going, next};
ghost use Rattle.preconditioner.specs.Held.{Ready, z_run, z_in};
ghost use Rattle.recurrence.specs.Step.{product_fit, first_from, beta_of, turned_of, renew_from};
ghost use Rattle.recurrence.specs.Parts.{next_from};
ghost use Rattle.recurrence.specs.Vectors.{dot_product_of};
ghost use Rattle.recurrence.specs.Answers.{carried_out, CarriedLeft};

use crate::ratio::{beta, fit_product};
use crate::vector::{dot_product, update_direction};
use preconditioner::{Preconditioner, apply_preconditioner};
use refusals::Refusal;

// s of a residual and its z, which is the direction at first.
#[tactic(auto, unfolding(crate::specs::Step::first_from, loops::specs::Run::on))]
fn first_direction(
    residual: &[f64],
    preconditioned: &[f64],
    direction: &mut [f64],
) -> Result<f64, Refusal>
    requires { (length preconditioned.now ≡ length residual.now) × (length direction.old ≡ length residual.now) }
    ensures { first_from (going preconditioned.now) residual.now ≡ carried_out result direction.new }
{
    loops::copy(direction, preconditioned);
    fit_product(dot_product(residual, preconditioned))
}

fn turn_direction(
    residual_product: f64,
    next_residual_product: f64,
    preconditioned: &[f64],
    direction: &mut [f64],
) -> Result<f64, Refusal>
    requires { length preconditioned.now ≡ length direction.old }
    ensures { next (beta_of next_residual_product residual_product) (turned_of preconditioned.now direction.old next_residual_product) ≡ carried_out result direction.new }
{
    let scale = beta(next_residual_product, residual_product)?;
    if !update_direction(direction, preconditioned, scale) {
        return Err(Refusal::Step);
    }
    Ok(next_residual_product)
}

// The direction after a step that missed, from z and its s.
#[tactic(auto, unfolding(crate::specs::Parts::next_from, loops::specs::Run::on))]
pub fn next_direction(
    next_residual_product: f64,
    residual_product: f64,
    preconditioned: &[f64],
    direction: &mut [f64],
) -> Result<f64, Refusal>
    requires { length preconditioned.now ≡ length direction.old }
    ensures { next_from preconditioned.now record { direction = direction.entry.now; s = residual_product } next_residual_product ≡ carried_out result direction.exit.now }
{
    let s = fit_product(next_residual_product)?;
    turn_direction(residual_product, s, preconditioned, direction)
}

// z, s and direction of step 0. After a refusal the direction is left free.
#[tactic(auto, unfolding(crate::specs::Step::first_from, crate::specs::Answers::standing, loops::specs::Run::on))]
pub fn first(
    preconditioner: Preconditioner,
    diagonal: &[f64],
    pattern: &[u32],
    order: &[u32],
    values: &[f64],
    residual: &[f64],
    preconditioned: &mut [f64],
    direction: &mut [f64],
) -> Result<f64, Refusal>
    requires ready { Ready preconditioner (length residual.now) record { diagonal = diagonal.now; pattern = pattern.now; order = order.now; values = values.now } }
    requires preconditioned_len { (length preconditioned.old ≡ length residual.now) × (length direction.old ≡ length residual.now) }
    ensures residual_value { first_from (z_in preconditioner (length residual.now) record { diagonal = diagonal.entry.now; pattern = pattern.now; order = order.now; values = values.now } residual.now) residual.now
        ≡ carried_out result direction.new }
    ensures carried_left { CarriedLeft (z_run preconditioner (length residual.now) record { diagonal = diagonal.entry.now; pattern = pattern.now; order = order.now; values = values.now } residual.now)
        preconditioned.new direction.old direction.new }
{
    apply_preconditioner(
        preconditioner,
        diagonal,
        pattern,
        order,
        values,
        residual,
        preconditioned,
    )?;
    first_direction(residual, preconditioned, direction)
}

// z, s and direction of a later step. After a refusal the direction is left free.
#[tactic(auto, unfolding(crate::specs::Step::renew_from, crate::specs::Parts::next_from, crate::specs::Answers::standing, loops::specs::Run::on))]
pub fn renew(
    preconditioner: Preconditioner,
    diagonal: &[f64],
    pattern: &[u32],
    order: &[u32],
    values: &[f64],
    residual: &[f64],
    residual_product: f64,
    preconditioned: &mut [f64],
    direction: &mut [f64],
) -> Result<f64, Refusal>
    requires ready { Ready preconditioner (length residual.now) record { diagonal = diagonal.now; pattern = pattern.now; order = order.now; values = values.now } }
    requires preconditioned_len { (length preconditioned.old ≡ length residual.now) × (length direction.old ≡ length residual.now) }
    ensures residual_product_value { renew_from (z_in preconditioner (length residual.now) record { diagonal = diagonal.entry.now; pattern = pattern.now; order = order.now; values = values.now } residual.now) residual.now record { direction = direction.entry.now; s = residual_product }
        ≡ carried_out result direction.exit.now }
    ensures carried_left { CarriedLeft (z_run preconditioner (length residual.now) record { diagonal = diagonal.entry.now; pattern = pattern.now; order = order.now; values = values.now } residual.now)
        preconditioned.new direction.old direction.new }
{
    apply_preconditioner(
        preconditioner,
        diagonal,
        pattern,
        order,
        values,
        residual,
        preconditioned,
    )?;
    let s = dot_product(residual, preconditioned);
    next_direction(s, residual_product, preconditioned, direction)
}
