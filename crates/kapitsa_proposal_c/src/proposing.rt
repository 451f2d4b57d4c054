// Propose, look, then commit, for C (document 02, l): 0, or the refusal's number.
ghost use Rattle.std.specs.Prelude.{◌≡◌, ◌&&◌, length};
ghost use Rattle.refusals.specs.Told.{told};
ghost use Rattle.rules.specs.Rows.{rules_in};
ghost use Rattle.preconditioner.specs.Mode.{mode_of};
ghost use Rattle.solve_method.specs.Position.{position_of};
ghost use Rattle.work_memory.specs.Work.{work_memory};
ghost use Rattle.work_memory.specs.Lengths.{passes3};
ghost use Rattle.solve_by_rules.specs.Ruled.{rules_lent, centres_lent};
ghost use Rattle.position_proposal.specs.Proposed.{proposal_lent};
ghost use Rattle.proposals.specs.Commit.{Committed};
ghost use Rattle.kapitsa_proposal_c.specs.Proposing.{maxima_fit, maxima_told, ProposalTold};

use position_delivery::PositionPcgResult;
use position_proposal::propose_position;
use proposals::commit_proposal;
use refusals::Refusal;

// The two maxima; nothing where the answer is a refusal.
fn tell_maxima(answer: Result<PositionPcgResult, Refusal>, maxima: &mut [f64]) -> u32
    requires { length maxima.old ≡ 2 }
    ensures { record { number = result; maxima = maxima.new } ≡ maxima_told (told answer) maxima.old }
{
    match answer {
        Ok(result) => {
            maxima[0] = result.linear_residual_m;
            maxima[1] = result.angular_residual_rad;
            0
        }
        Err(refusal) => refusal.number(),
    }
}

// kapitsa_solve_position without its last step: the same slices, refusals 3, 25, 4, 27, 28 and 5 to 17 in the same order, and the same numbers, but for the rows, which are only read. In place of counts: proposal 4 (rows, flag, count, mark) and started n (the multipliers it started from).
// After a refusal nothing is written; 3 leaves the work memory too as it was.
#[unsafe(no_mangle)]
pub extern "C" fn kapitsa_propose_position(
    numbers: &[f64],
    words: &[u32],
    masses: &[f64],
    centres: &[f64],
    rule_words: &[u32],
    rule_tolerances: &[f64],
    rows: u32,
    bodies: u32,
    limit: u32,
    mode: u32,
    shift: f64,
    solution: &mut [f64],
    impulses: &mut [f64],
    new_centres: &mut [f64],
    rule_numbers: &mut [u32],
    proposal: &mut [u32],
    started: &mut [f64],
    maxima: &mut [f64],
    jacobians: &mut [f64],
    links: &mut [u32],
    tolerances: &mut [f64],
    diagonal: &mut [f64],
    residual: &mut [f64],
    pending: &mut [f64],
    direction: &mut [f64],
    product: &mut [f64],
    body_impulses: &mut [f64],
    pattern: &mut [u32],
    order: &mut [u32],
    values: &mut [f64],
) -> u32
    ensures { ProposalTold (maxima_fit maxima.old && ((proposal_lent rows (length proposal.old) (length started.old) && (rules_lent rows (length rule_words.now) (length rule_tolerances.now) (length rule_numbers.old) && centres_lent bodies (length centres.now) (length new_centres.old))) && passes3 rows bodies mode numbers.now words.entry.now masses.now solution.old impulses.old (work_memory jacobians.old links.old tolerances.old diagonal.old residual.old pending.old direction.old product.old body_impulses.old pattern.old order.old values.old)))
        (rules_in rule_words.now rule_tolerances.now)
        (position_of rows bodies numbers.now words.entry.now masses.now centres.now (rules_in rule_words.now rule_tolerances.now) shift) (mode_of mode shift) limit rows numbers.now
        record { words = proposal.old; solution = solution.old; impulses = impulses.old; centres = new_centres.old; started = started.old } record { words = proposal.new; solution = solution.new; impulses = impulses.new; centres = new_centres.new; started = started.new }
        rule_numbers.old rule_numbers.new maxima.old record { number = result; maxima = maxima.new }
        (work_memory jacobians.old links.old tolerances.old diagonal.old residual.old pending.old direction.old product.old body_impulses.old pattern.old order.old values.old)
        (work_memory jacobians.new links.new tolerances.new diagonal.new residual.new pending.new direction.new product.new body_impulses.new pattern.new order.new values.new) }
{
    if maxima.len() != 2 {
        return 3;
    }
    let answer = propose_position(
        numbers,
        words,
        masses,
        centres,
        rows,
        bodies,
        rule_words,
        rule_tolerances,
        limit,
        mode,
        shift,
        proposal,
        solution,
        impulses,
        new_centres,
        started,
        rule_numbers,
        jacobians,
        links,
        tolerances,
        diagonal,
        residual,
        pending,
        direction,
        product,
        body_impulses,
        pattern,
        order,
        values,
    );
    tell_maxima(answer, maxima)
}

// Refusals 3, 29 and 30, which write nothing. For n rows numbers 27n; proposal 4, solution and started, of as many rows as the proposal tells, as kapitsa_propose_position left them. Written: the accumulated multipliers, with count 0 none, and the proposal's mark.
#[unsafe(no_mangle)]
pub extern "C" fn kapitsa_commit_proposal(
    numbers: &mut [f64],
    rows: u32,
    proposal: &mut [u32],
    solution: &[f64],
    started: &[f64],
) -> u32
    ensures { Committed numbers.old rows proposal.old solution.now started.now record { number = result; numbers = numbers.new; words = proposal.new } }
{
    match commit_proposal(numbers, rows, proposal, solution, started) {
        Ok(()) => 0,
        Err(refusal) => refusal.number(),
    }
}
