// The position solve over lent tables, by lent rules: the entry.
ghost use Rattle.std.specs.Prelude.{◌≡◌, ◌&&◌, length};
ghost use Rattle.refusals.specs.Told.{told};
ghost use Rattle.rules.specs.Rows.{rules_in};
ghost use Rattle.preconditioner.specs.Mode.{mode_of};
ghost use Rattle.kapitsa_joint.specs.Kind.{place_of};
ghost use Rattle.solve_method.specs.Position.{position_of, solve_for};
ghost use Rattle.work_memory.specs.Work.{work_memory};
ghost use Rattle.work_memory.specs.Lengths.{passes3};
ghost use Rattle.solve_by_rules.specs.Ruled.{rules_lent, centres_lent, beside_lent, SolveRuled};

use kapitsa_joint::{Kind, place_of};
use position_delivery::{PositionPcgResult, commit};
use refusals::Refusal;
use solve_by_rules::{beside_lent, name_ruled, propose_by_rules, rules_lent};

// Of either kind, proposed and committed: solution, impulses, centres, the accumulated numbers and each row's rule are written only where the answer is accepted; the work memory is +0.0 (integers 0) afterwards, except after refusal 3, which writes nothing.
pub fn solve_prepared(
    kind: Kind,
    numbers: &mut [f64],
    words: &[u32],
    masses: &[f64],
    centres: &[f64],
    rows: u32,
    bodies: u32,
    rule_words: &[u32],
    rule_tolerances: &[f64],
    given: &[f64],
    limit: u32,
    mode: u32,
    shift: f64,
    solution: &mut [f64],
    impulses: &mut [f64],
    new_centres: &mut [f64],
    rule_numbers: &mut [u32],
    jacobians: &mut [f64],
    links: &mut [u32],
    tolerances: &mut [f64],
    diagonal: &mut [f64],
    residual: &mut [f64],
    pending: &mut [f64],
    direction: &mut [f64],
    product: &mut [f64],
    body_impulses: &mut [f64],
    pattern: &mut [u32],
    order: &mut [u32],
    values: &mut [f64],
) -> Result<PositionPcgResult, Refusal>
    ensures { SolveRuled ((rules_lent rows (length rule_words.now) (length rule_tolerances.now) (length rule_numbers.old) && beside_lent kind rows bodies (length centres.now) (length new_centres.old) (length given.now)) && passes3 rows bodies mode numbers.entry.now words.now masses.now solution.old impulses.old (work_memory jacobians.old links.old tolerances.old diagonal.old residual.old pending.old direction.old product.old body_impulses.old pattern.old order.old values.old))
        (rules_in rule_words.now rule_tolerances.now)
        (solve_for kind rows bodies numbers.entry.now words.now masses.now centres.now given.now (rules_in rule_words.now rule_tolerances.now) shift) (mode_of mode shift) limit (place_of kind) rows
        record { numbers = numbers.entry.now; solution = solution.old; impulses = impulses.old; centres = new_centres.old } record { numbers = numbers.exit.now; solution = solution.new; impulses = impulses.new; centres = new_centres.new }
        rule_numbers.old rule_numbers.new (told result)
        (work_memory jacobians.old links.old tolerances.old diagonal.old residual.old pending.old direction.old product.old body_impulses.old pattern.old order.old values.old)
        (work_memory jacobians.new links.new tolerances.new diagonal.new residual.new pending.new direction.new product.new body_impulses.new pattern.new order.new values.new) }
{
    let lent = rules_lent(
        rows,
        rule_words.len(),
        rule_tolerances.len(),
        rule_numbers.len(),
    ) & beside_lent(
        kind,
        rows,
        bodies,
        centres.len(),
        new_centres.len(),
        given.len(),
    );
    if !lent {
        return Err(Refusal::Length);
    }
    let answer = propose_by_rules(
        kind,
        numbers,
        words,
        masses,
        centres,
        rows,
        bodies,
        rule_words,
        rule_tolerances,
        given,
        limit,
        mode,
        shift,
        solution,
        impulses,
        new_centres,
        jacobians,
        links,
        tolerances,
        diagonal,
        residual,
        pending,
        direction,
        product,
        body_impulses,
        pattern,
        order,
        values,
    );
    commit(place_of(kind), answer, numbers, solution);
    name_ruled(answer, words, rule_words, rule_tolerances, rule_numbers);
    answer
}

// Solution, impulses, centres, accumulated multipliers and each row's rule are written only where the answer is accepted; the work memory is +0.0 (integers 0) afterwards, except after refusal 3, which writes nothing.
pub fn solve_position_pcg_prepared(
    numbers: &mut [f64],
    words: &[u32],
    masses: &[f64],
    centres: &[f64],
    rows: u32,
    bodies: u32,
    rule_words: &[u32],
    rule_tolerances: &[f64],
    limit: u32,
    mode: u32,
    shift: f64,
    solution: &mut [f64],
    impulses: &mut [f64],
    new_centres: &mut [f64],
    rule_numbers: &mut [u32],
    jacobians: &mut [f64],
    links: &mut [u32],
    tolerances: &mut [f64],
    diagonal: &mut [f64],
    residual: &mut [f64],
    pending: &mut [f64],
    direction: &mut [f64],
    product: &mut [f64],
    body_impulses: &mut [f64],
    pattern: &mut [u32],
    order: &mut [u32],
    values: &mut [f64],
) -> Result<PositionPcgResult, Refusal>
    ensures { SolveRuled ((rules_lent rows (length rule_words.now) (length rule_tolerances.now) (length rule_numbers.old) && centres_lent bodies (length centres.now) (length new_centres.old)) && passes3 rows bodies mode numbers.entry.now words.now masses.now solution.old impulses.old (work_memory jacobians.old links.old tolerances.old diagonal.old residual.old pending.old direction.old product.old body_impulses.old pattern.old order.old values.old))
        (rules_in rule_words.now rule_tolerances.now)
        (position_of rows bodies numbers.entry.now words.now masses.now centres.now (rules_in rule_words.now rule_tolerances.now) shift) (mode_of mode shift) limit 24 rows
        record { numbers = numbers.entry.now; solution = solution.old; impulses = impulses.old; centres = new_centres.old } record { numbers = numbers.exit.now; solution = solution.new; impulses = impulses.new; centres = new_centres.new }
        rule_numbers.old rule_numbers.new (told result)
        (work_memory jacobians.old links.old tolerances.old diagonal.old residual.old pending.old direction.old product.old body_impulses.old pattern.old order.old values.old)
        (work_memory jacobians.new links.new tolerances.new diagonal.new residual.new pending.new direction.new product.new body_impulses.new pattern.new order.new values.new) }
{
    let none: [f64; 0] = [0.0; 0];
    solve_prepared(
        Kind::Position,
        numbers,
        words,
        masses,
        centres,
        rows,
        bodies,
        rule_words,
        rule_tolerances,
        &none,
        limit,
        mode,
        shift,
        solution,
        impulses,
        new_centres,
        rule_numbers,
        jacobians,
        links,
        tolerances,
        diagonal,
        residual,
        pending,
        direction,
        product,
        body_impulses,
        pattern,
        order,
        values,
    )
}
