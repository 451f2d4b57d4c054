// The commit of a proposal, document 02, l: "a commit writes the new multipliers and marks the proposal"; "29, the proposal bears the mark; 30, a multiplier or the row count is not what the proposal started from, bits compared; 29 first, and neither writes".
ghost use Rattle.std.specs.Prelude.{◌≡◌, ◌&&◌, ◌*◌, ◌≤◌, eqb, length};
ghost use Rattle.loops.specs.Judge.{judge};
ghost use Rattle.refusals.specs.Told.{told};
ghost use Rattle.proposals.specs.Commit.{rows_in, commit_lent, same_multipliers, commit_tests, number_in, Committed};

use binary64::to_bits;
use loops::wide;
use position_delivery::gain_after;
use refusals::Refusal;

// Refusal 3: the slices are those of the rows, and of the proposal that its own words tell of. True where it does not apply.
fn commit_lent(rows: u32, numbers: usize, proposal: &[u32], solution: usize, started: usize) -> bool
    ensures { result ≡ commit_lent rows numbers proposal.now solution started }
{
    if proposal.len() != 4 {
        return false;
    }
    let proposed = wide(proposal[0]);
    (rows <= 512) & (numbers == 27 * wide(rows)) & (solution == proposed) & (started == proposed)
}

// Refusal 30 of the multipliers: true where each has the bits that the proposal started from. So +0.0 and -0.0 differ. All NaNs have one pattern here; a proposal that the solve made started from finite numbers, so that a NaN always differs.
fn same_multipliers(numbers: &[f64], started: &[f64]) -> bool
    requires { 27 * length started.now ≤ length numbers.now }
    ensures { result ≡ same_multipliers numbers.now started.now (length started.now) }
{
    (0..started.len()).all(|i| to_bits(numbers[27 * i + 24]) == to_bits(started[i]))
}

// Refusal 30, of the row count and of the multipliers.
fn starts_from(rows: u32, proposed: u32, numbers: &[f64], started: &[f64]) -> bool
    requires { (length numbers.now ≡ 27 * rows) × (length started.now ≡ proposed) }
    ensures { result ≡ (eqb rows proposed && same_multipliers numbers.now started.now (length started.now)) }
{
    if rows != proposed {
        return false;
    }
    same_multipliers(numbers, started)
}

// The refusals in their order: the first that applies.
fn judge_commit(
    numbers: &[f64],
    rows: u32,
    proposal: &[u32],
    solution: &[f64],
    started: &[f64],
) -> Result<(), Refusal>
    ensures { judge (commit_tests numbers.now rows proposal.now solution.now started.now) ≡ told result }
{
    if !commit_lent(rows, numbers.len(), proposal, solution.len(), started.len()) {
        return Err(Refusal::Length);
    }
    if !(proposal[3] == 0) {
        return Err(Refusal::Committed);
    }
    if !starts_from(rows, proposal[0], numbers, started) {
        return Err(Refusal::Moved);
    }
    Ok(())
}

// Numbers are the rows as they are now, of 27 each; proposal, solution and started are as `propose_position` left them. With count 0 the multipliers keep their bits.
pub fn commit_proposal(
    numbers: &mut [f64],
    rows: u32,
    proposal: &mut [u32],
    solution: &[f64],
    started: &[f64],
) -> Result<(), Refusal>
    ensures { Committed numbers.old rows proposal.old solution.now started.now record { number = number_in (told result); numbers = numbers.new; words = proposal.new } }
{
    judge_commit(numbers, rows, proposal, solution, started)?;
    gain_after(24, proposal[2], numbers, solution);
    proposal[3] = 1;
    Ok(())
}
