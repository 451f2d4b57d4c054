// The proposal of a position solve, document 02, l: "a proposal carries the answer, solution, impulses, centres and the multipliers it started from".
ghost use Rattle.std.specs.Prelude.{◌≡◌, ◌&&◌, length};
ghost use Rattle.refusals.specs.Told.{told};
ghost use Rattle.rules.specs.Rows.{rules_in};
ghost use Rattle.preconditioner.specs.Mode.{mode_of};
ghost use Rattle.solve_method.specs.Position.{position_of};
ghost use Rattle.work_memory.specs.Work.{work_memory};
ghost use Rattle.work_memory.specs.Lengths.{passes3};
ghost use Rattle.solve_by_rules.specs.Ruled.{rules_lent, centres_lent};
ghost use Rattle.position_proposal.specs.Proposed.{proposal_lent, Proposed};

use kapitsa_joint::Kind;
use loops::wide;
use position_delivery::PositionPcgResult;
use proposals::note_accepted;
use refusals::Refusal;
use solve_by_rules::{centres_lent, name_accepted, propose_by_rules, rules_lent};

// Refusal 3, of all that is lent beside the table: true where it does not apply.
fn proposal_lent(
    rows: u32,
    bodies: u32,
    proposal: usize,
    started: usize,
    rule_words: usize,
    rule_tolerances: usize,
    rule_numbers: usize,
    centres: usize,
    new_centres: usize,
) -> bool
    ensures { result ≡ (proposal_lent rows proposal started && (rules_lent rows rule_words rule_tolerances rule_numbers && centres_lent bodies centres new_centres)) }
{
    let fits = (proposal == 4) & (started == wide(rows));
    let lent = rules_lent(rows, rule_words, rule_tolerances, rule_numbers)
        & centres_lent(bodies, centres, new_centres);
    fits & lent
}

// Judged as the position solve, which writes what this does, but for the rows: those are lent by `&`, so that a proposal dropped has changed nothing of the job. Where the answer is accepted, proposal gets rows, flag, count and mark 0, started each row's accumulated multiplier; a refusal, 17 too, writes none of it.
pub fn propose_position(
    numbers: &[f64],
    words: &[u32],
    masses: &[f64],
    centres: &[f64],
    rows: u32,
    bodies: u32,
    rule_words: &[u32],
    rule_tolerances: &[f64],
    limit: u32,
    mode: u32,
    shift: f64,
    proposal: &mut [u32],
    solution: &mut [f64],
    impulses: &mut [f64],
    new_centres: &mut [f64],
    started: &mut [f64],
    rule_numbers: &mut [u32],
    jacobians: &mut [f64],
    links: &mut [u32],
    tolerances: &mut [f64],
    diagonal: &mut [f64],
    residual: &mut [f64],
    pending: &mut [f64],
    direction: &mut [f64],
    product: &mut [f64],
    body_impulses: &mut [f64],
    pattern: &mut [u32],
    order: &mut [u32],
    values: &mut [f64],
) -> Result<PositionPcgResult, Refusal>
    ensures { Proposed ((proposal_lent rows (length proposal.old) (length started.old) && (rules_lent rows (length rule_words.now) (length rule_tolerances.now) (length rule_numbers.old) && centres_lent bodies (length centres.now) (length new_centres.old))) && passes3 rows bodies mode numbers.now words.entry.now masses.now solution.old impulses.old (work_memory jacobians.old links.old tolerances.old diagonal.old residual.old pending.old direction.old product.old body_impulses.old pattern.old order.old values.old))
        (rules_in rule_words.now rule_tolerances.now)
        (position_of rows bodies numbers.now words.entry.now masses.now centres.now (rules_in rule_words.now rule_tolerances.now) shift) (mode_of mode shift) limit rows numbers.now
        record { words = proposal.old; solution = solution.old; impulses = impulses.old; centres = new_centres.old; started = started.old } record { words = proposal.new; solution = solution.new; impulses = impulses.new; centres = new_centres.new; started = started.new }
        rule_numbers.old rule_numbers.new (told result)
        (work_memory jacobians.old links.old tolerances.old diagonal.old residual.old pending.old direction.old product.old body_impulses.old pattern.old order.old values.old)
        (work_memory jacobians.new links.new tolerances.new diagonal.new residual.new pending.new direction.new product.new body_impulses.new pattern.new order.new values.new) }
{
    if !proposal_lent(
        rows,
        bodies,
        proposal.len(),
        started.len(),
        rule_words.len(),
        rule_tolerances.len(),
        rule_numbers.len(),
        centres.len(),
        new_centres.len(),
    ) {
        return Err(Refusal::Length);
    }
    let none: [f64; 0] = [0.0; 0];
    let answer = propose_by_rules(
        Kind::Position,
        numbers,
        words,
        masses,
        centres,
        rows,
        bodies,
        rule_words,
        rule_tolerances,
        &none,
        limit,
        mode,
        shift,
        solution,
        impulses,
        new_centres,
        jacobians,
        links,
        tolerances,
        diagonal,
        residual,
        pending,
        direction,
        product,
        body_impulses,
        pattern,
        order,
        values,
    );
    name_accepted(answer, words, rule_words, rule_tolerances, rule_numbers);
    note_accepted(answer, rows, numbers, proposal, started);
    answer
}
