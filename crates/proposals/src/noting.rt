// What a proposal has beside the solve's numbers: its words, and the multipliers it started from.
ghost use Rattle.std.specs.Prelude.{◌≡◌, ◌*◌, ◌≤◌, length};
ghost use Rattle.refusals.specs.Told.{told};
ghost use Rattle.loops.specs.Tabulate.{tabulate};
ghost use Rattle.position.specs.Multipliers.{accumulated_in};
ghost use Rattle.proposals.specs.Proposal.{NotingRoom, words_by, started_by};

use position_delivery::PositionPcgResult;
use refusals::Refusal;

// The accumulated multiplier of each row.
fn copy_multipliers(numbers: &[f64], started: &mut [f64])
    requires { 27 * length started.old ≤ length numbers.now }
    ensures { started.new ≡ tabulate (accumulated_in 24 numbers.now) (length started.old) }
{
    for i in 0..started.len() {
        started[i] = numbers[27 * i + 24];
    }
}

// Of an accepted answer: rows, flag, count and no mark, and what it started from. "A refused solve makes none."
pub fn note_accepted(
    answer: Result<PositionPcgResult, Refusal>,
    rows: u32,
    numbers: &[f64],
    proposal: &mut [u32],
    started: &mut [f64],
)
    requires { NotingRoom (told answer) (length numbers.now) (length proposal.old) (length started.old) }
    ensures proposal_after { proposal.new ≡ words_by (told answer) rows proposal.old }
    ensures started_after { started.new ≡ started_by (told answer) numbers.now (length started.old) started.old }
{
    match answer {
        Ok(result) => {
            proposal[0] = rows;
            proposal[1] = result.converged as u32;
            proposal[2] = result.iterations;
            proposal[3] = 0;
            copy_multipliers(numbers, started);
        }
        Err(_) => {}
    }
}
