// What follows step 0: the count 0 test, the factor, or the factor first, then the first direction, and the loop.
ghost use Rattle.std.specs.Prelude.{◌≡◌, ◌*◌, ◌≤◌, length};
ghost use Rattle.loops.specs.Run.{next};
ghost use Rattle.kapitsa_joint.specs.Table.{tolerances_in};
ghost use Rattle.mass_operator.specs.System.{compact_system};
ghost use Rattle.preconditioner.specs.Room.{Roomy};
ghost use Rattle.preconditioner.specs.Held.{z_in, joints_in};
ghost use Rattle.position_iteration.specs.Standing.{Standing, iterated_out};
ghost use Rattle.position_steps.specs.Start.{start_out, Linking};
ghost use Rattle.position_steps.specs.Running.{stepping_by, following_of, RunFree};

use position::position_vector_converged;
use position_iteration::iterate;
use preconditioner::{Mode, Preconditioner, build_preconditioner};
use recurrence::first;
use refusals::Refusal;

// With the factor that stands there: the first direction, and the loop.
fn step_on(
    tolerances: &[f64],
    preconditioner: Preconditioner,
    masses: &[f64],
    bodies: usize,
    jacobians: &[f64],
    links: &[u32],
    diagonal: &[f64],
    pattern: &[u32],
    order: &[u32],
    values: &[f64],
    limit: u32,
    body_impulses: &mut [f64],
    product: &mut [f64],
    pending: &mut [f64],
    residual: &mut [f64],
    direction: &mut [f64],
) -> Result<Option<u32>, Refusal>
    requires standing { Standing preconditioner (length tolerances.now) bodies tolerances.now masses.now jacobians.now links.now record { diagonal = diagonal.now; pattern = pattern.now; order = order.now; values = values.now } }
    requires body_impulses_len { (length body_impulses.old ≡ 6 * bodies) × (length product.old ≡ length tolerances.now) × (length pending.old ≡ length tolerances.now) × (length residual.old ≡ length tolerances.now) × (length direction.old ≡ length tolerances.now) }
    ensures { stepping_by (z_in preconditioner (length tolerances.now) record { diagonal = diagonal.entry.now; pattern = pattern.now; order = order.now; values = values.now }) (compact_system (length tolerances.now) bodies jacobians.now links.now masses.now) (tolerances_in tolerances.now) limit record { solution = pending.old; residual = residual.old }
        ≡ iterated_out result limit pending.new residual.new }
{
    let s = first(
        preconditioner,
        diagonal,
        pattern,
        order,
        values,
        residual,
        product,
        direction,
    )?;
    iterate(
        tolerances,
        preconditioner,
        masses,
        bodies,
        jacobians,
        links,
        diagonal,
        pattern,
        order,
        values,
        s,
        limit,
        body_impulses,
        product,
        pending,
        residual,
        direction,
    )
}

// From how step 0 began. After a refusal all that is written is left free.
pub fn run_steps(
    begun: Result<(), Refusal>,
    factor_first: bool,
    words: &[u32],
    tolerances: &[f64],
    mode: Mode,
    masses: &[f64],
    rows: u32,
    bodies: usize,
    jacobians: &[f64],
    links: &[u32],
    limit: u32,
    diagonal: &mut [f64],
    pattern: &mut [u32],
    order: &mut [u32],
    values: &mut [f64],
    body_impulses: &mut [f64],
    product: &mut [f64],
    pending: &mut [f64],
    residual: &mut [f64],
    direction: &mut [f64],
) -> Result<Option<u32>, Refusal>
    requires words_len { (length words.now ≡ 8 * rows) × (length tolerances.now ≡ rows) × (10 * bodies ≤ length masses.now) × (12 * rows ≤ length jacobians.now) × (2 * rows ≤ length links.now) }
    requires linking { Linking begun links.now rows bodies }
    requires roomy { Roomy mode rows record { diagonal = diagonal.now; pattern = pattern.old; order = order.old; values = values.old } }
    requires body_impulses_len { (length body_impulses.old ≡ 6 * bodies) × (length product.old ≡ rows) × (length pending.old ≡ rows) × (length residual.old ≡ rows) × (length direction.old ≡ rows) }
    ensures limit_value { next (start_out begun pending.old residual.old) (following_of factor_first mode (compact_system rows bodies jacobians.now links.now masses.now) (joints_in words.now) diagonal.old (tolerances_in tolerances.now) limit)
        ≡ iterated_out result limit pending.new residual.new }
    ensures run_free { RunFree record { diagonal = diagonal.entry.now; pattern = pattern.old; order = order.old; values = values.old } record { diagonal = diagonal.exit.now; pattern = pattern.new; order = order.new; values = values.new } body_impulses.old product.old pending.old residual.old direction.old body_impulses.new product.new pending.new residual.new direction.new }
{
    begun?;
    let meets = position_vector_converged(tolerances, residual);
    if meets & !factor_first {
        return Ok(Some(0));
    }
    let preconditioner = build_preconditioner(
        mode, words, jacobians, links, masses, rows, bodies, diagonal, pattern, order, values,
    )?;
    if meets {
        return Ok(Some(0));
    }
    step_on(
        tolerances,
        preconditioner,
        masses,
        bodies,
        jacobians,
        links,
        diagonal,
        pattern,
        order,
        values,
        limit,
        body_impulses,
        product,
        pending,
        residual,
        direction,
    )
}
