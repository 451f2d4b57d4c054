// The velocity solve over lent tables, by a lent residual and lent rules: the entry of document 02, a.
ghost use Rattle.std.specs.Prelude.{◌&&◌, length, []};
ghost use Rattle.refusals.specs.Told.{told};
ghost use Rattle.rules.specs.Rows.{rules_in};
ghost use Rattle.preconditioner.specs.Mode.{mode_of};
ghost use Rattle.solve_method.specs.Position.{velocity_of};
ghost use Rattle.work_memory.specs.Work.{work_memory};
ghost use Rattle.work_memory.specs.Lengths.{passes3};
ghost use Rattle.solve_by_rules.specs.Ruled.{rules_lent, residual_lent, SolveRuled};

use crate::prepared::solve_prepared;
use kapitsa_joint::Kind;
use position_delivery::PositionPcgResult;
use refusals::Refusal;

// Solution, impulses, accumulated impulses and each row's rule are written only where the answer is accepted; the work memory is +0.0 (integers 0) afterwards, except after refusal 3, which writes nothing.
pub fn solve_velocity_pcg_prepared(
    numbers: &mut [f64],
    words: &[u32],
    masses: &[f64],
    rows: u32,
    bodies: u32,
    rule_words: &[u32],
    rule_tolerances: &[f64],
    given: &[f64],
    limit: u32,
    mode: u32,
    shift: f64,
    solution: &mut [f64],
    impulses: &mut [f64],
    rule_numbers: &mut [u32],
    jacobians: &mut [f64],
    links: &mut [u32],
    tolerances: &mut [f64],
    diagonal: &mut [f64],
    residual: &mut [f64],
    pending: &mut [f64],
    direction: &mut [f64],
    product: &mut [f64],
    body_impulses: &mut [f64],
    pattern: &mut [u32],
    order: &mut [u32],
    values: &mut [f64],
) -> Result<PositionPcgResult, Refusal>
    ensures { SolveRuled ((rules_lent rows (length rule_words.now) (length rule_tolerances.now) (length rule_numbers.old) && residual_lent rows (length given.now)) && passes3 rows bodies mode numbers.entry.now words.now masses.now solution.old impulses.old (work_memory jacobians.old links.old tolerances.old diagonal.old residual.old pending.old direction.old product.old body_impulses.old pattern.old order.old values.old))
        (rules_in rule_words.now rule_tolerances.now)
        (velocity_of rows bodies numbers.entry.now words.now masses.now given.now (rules_in rule_words.now rule_tolerances.now) shift) (mode_of mode shift) limit 25 rows
        record { numbers = numbers.entry.now; solution = solution.old; impulses = impulses.old; centres = [] } record { numbers = numbers.exit.now; solution = solution.new; impulses = impulses.new; centres = [] }
        rule_numbers.old rule_numbers.new (told result)
        (work_memory jacobians.old links.old tolerances.old diagonal.old residual.old pending.old direction.old product.old body_impulses.old pattern.old order.old values.old)
        (work_memory jacobians.new links.new tolerances.new diagonal.new residual.new pending.new direction.new product.new body_impulses.new pattern.new order.new values.new) }
{
    let none: [f64; 0] = [0.0; 0];
    let mut no_centres: [f64; 0] = [0.0; 0];
    solve_prepared(
        Kind::Velocity,
        numbers,
        words,
        masses,
        &none,
        rows,
        bodies,
        rule_words,
        rule_tolerances,
        given,
        limit,
        mode,
        shift,
        solution,
        impulses,
        &mut no_centres,
        rule_numbers,
        jacobians,
        links,
        tolerances,
        diagonal,
        residual,
        pending,
        direction,
        product,
        body_impulses,
        pattern,
        order,
        values,
    )
}
