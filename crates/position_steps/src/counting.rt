// From step 0 to the step that is counted: prepare, the count 0 test, factor, steps; of velocities the factor before the test.
ghost use Rattle.std.specs.Prelude.{◌*◌, ◌≤◌, length};
ghost use Rattle.rules.specs.Rows.{rules_in};
ghost use Rattle.position.specs.Kinds.{GivenRoom};
ghost use Rattle.solve_method.specs.Position.{kind_of};
ghost use Rattle.position_steps.specs.Opening.{OpenedRuled};
ghost use Rattle.work_memory.specs.Work.{step_memory, table_memory, work_memory};
ghost use Rattle.work_memory.specs.Lengths.{RowsRoom, WorkRoom};
ghost use Rattle.position_steps.specs.Counting.{CountHeld, CountFree};

use crate::beginning::start;
use crate::running::run_steps;
use kapitsa_joint::{Kind, is_velocity};
use loops::wide;
use preconditioner::Mode;
use refusals::Refusal;
use work_memory::clear_steps;

// The step counted stands in `pending` and `residual`; after a refusal these, the compact table and `body_impulses` are left free.
pub fn count_steps(
    opened: Result<(), Refusal>,
    kind: Kind,
    numbers: &[f64],
    words: &[u32],
    masses: &[f64],
    rows: u32,
    bodies: u32,
    rule_words: &[u32],
    rule_tolerances: &[f64],
    given: &[f64],
    limit: u32,
    mode: Mode,
    jacobians: &mut [f64],
    links: &mut [u32],
    tolerances: &mut [f64],
    diagonal: &mut [f64],
    residual: &mut [f64],
    pending: &mut [f64],
    direction: &mut [f64],
    product: &mut [f64],
    body_impulses: &mut [f64],
    pattern: &mut [u32],
    order: &mut [u32],
    values: &mut [f64],
) -> Result<Option<u32>, Refusal>
    requires rows_room { RowsRoom rows bodies numbers.now words.now masses.now }
    requires work_room { WorkRoom mode rows bodies (work_memory jacobians.old links.old tolerances.old diagonal.old residual.old pending.old direction.old product.old body_impulses.old pattern.old order.old values.old) }
    requires rule_tolerances_in_bounds { 3 * length rule_tolerances.now ≤ length rule_words.now }
    requires given_room { GivenRoom kind (length given.now) rows × OpenedRuled opened (rules_in rule_words.now rule_tolerances.now) words.now rows }
    ensures count_held { CountHeld mode (kind_of kind rows bodies numbers.now words.now masses.now given.now (rules_in rule_words.now rule_tolerances.now)) opened limit masses.now result jacobians.new links.new pending.new residual.new
        (step_memory tolerances.old diagonal.old direction.old product.old pattern.old order.old values.old)
        (step_memory tolerances.new diagonal.new direction.new product.new pattern.new order.new values.new) }
    ensures count_free { CountFree (table_memory jacobians.old links.old residual.old pending.old body_impulses.old) (table_memory jacobians.new links.new residual.new pending.new body_impulses.new) }
{
    let begun = start(
        opened,
        kind,
        numbers,
        words,
        masses,
        rows,
        bodies,
        rule_words,
        rule_tolerances,
        given,
        jacobians,
        links,
        tolerances,
        diagonal,
        pending,
        residual,
    );
    let counted = run_steps(
        begun,
        is_velocity(kind),
        words,
        tolerances,
        mode,
        masses,
        rows,
        wide(bodies),
        jacobians,
        links,
        limit,
        diagonal,
        pattern,
        order,
        values,
        body_impulses,
        product,
        pending,
        residual,
        direction,
    );
    clear_steps(
        tolerances, diagonal, direction, product, pattern, order, values,
    );
    counted
}
