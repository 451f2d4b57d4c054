// One case: its table read out of its bytes, the check run on it, its answer beside the recorded one.
ghost use Rattle.std.specs.Prelude.{◌≡◌, ◌*◌, length};
ghost use Rattle.refusals.specs.Told.{told};
ghost use Rattle.closing_recorded.specs.Case.{well_formed, Formed, same_gap, compared_of, seen_in, seen_of};

use crate::tally::Seen;
use check_alone::checked;
use check_answer::Verdict;
use kapitsa_joint::Maxima;
use little_endian::{double, read_doubles, read_halves, word};
use refusals::Refusal;

// At most one row and one body more than a check may have, and all of their words.
fn well_formed(case: &[u8]) -> bool
    ensures { result ≡ well_formed case.now }
{
    if case.len() < 64 {
        return false;
    }
    let n = word(case, 8);
    let b = word(case, 16);
    if 513 < n {
        return false;
    }
    if 257 < b {
        return false;
    }
    case.len() as u64 == 64 + 288 * n + 104 * b
}

// Bit for bit.
fn same_gap(gap: Maxima, linear: u64, angular: u64) -> bool
    ensures { result ≡ same_gap gap linear angular }
{
    (binary64::to_bits(gap.linear) == linear) & (binary64::to_bits(gap.angular) == angular)
}

#[tactic(auto, unfolding(crate::specs::Case::compared_of))]
fn compared(answer: Result<Verdict, Refusal>, recorded: u64, linear: u64, angular: u64) -> Seen
    ensures { result ≡ compared_of (told answer) recorded linear angular }
{
    let number = check_answer::number(answer);
    let gap = check_answer::gap(answer);
    Seen {
        answer: number,
        same: (number as u64 == recorded) & same_gap(gap, linear, angular),
    }
}

// The slices are as long as the table.
fn read_in(
    case: &[u8],
    n: u32,
    b: u32,
    numbers: &mut [f64],
    words: &mut [u32],
    masses: &mut [f64],
    centres: &mut [f64],
    multipliers: &mut [f64],
) -> Seen
    requires formed { Formed case.now n b }
    requires numbers_len { (length numbers.old ≡ 27 * n) × (length words.old ≡ 8 * n) × (length masses.old ≡ 10 * b) × (length centres.old ≡ 3 * b) × (length multipliers.old ≡ n) }
    ensures { result ≡ seen_in case.now n b }
{
    let rows = n as usize;
    let bodies = b as usize;
    let at = 64 + 280 * rows;
    let rule_tolerances = [double(case, 24), double(case, 32)];
    let mut rule_numbers: [u32; 513] = [0; 513];
    let recorded = word(case, 40);
    let linear = word(case, 48);
    let angular = word(case, 56);
    read_doubles(case, 64, numbers);
    read_halves(case, 64 + 216 * rows, words);
    read_doubles(case, at, masses);
    read_doubles(case, at + 80 * bodies, centres);
    read_doubles(case, at + 104 * bodies, multipliers);
    let answer = checked(
        n,
        b,
        numbers,
        words,
        masses,
        centres,
        multipliers,
        &[0, 0, 255, 1, 0, 255],
        &rule_tolerances,
        &mut rule_numbers[..rows],
    );
    compared(answer, recorded, linear, angular)
}

fn read(case: &[u8], n: u32, b: u32) -> Seen
    requires { Formed case.now n b }
    ensures { result ≡ seen_in case.now n b }
{
    let mut numbers: [f64; 13851] = [0.0; 13851];
    let mut words: [u32; 4104] = [0; 4104];
    let mut masses: [f64; 2570] = [0.0; 2570];
    let mut centres: [f64; 771] = [0.0; 771];
    let mut multipliers: [f64; 513] = [0.0; 513];
    let rows = n as usize;
    let bodies = b as usize;
    let row_numbers = 27 * rows;
    let row_words = 8 * rows;
    let mass_numbers = 10 * bodies;
    let centre_numbers = 3 * bodies;
    read_in(
        case,
        n,
        b,
        &mut numbers[..row_numbers],
        &mut words[..row_words],
        &mut masses[..mass_numbers],
        &mut centres[..centre_numbers],
        &mut multipliers[..rows],
    )
}

pub fn replay(case: &[u8]) -> Seen
    ensures { result ≡ seen_of case.now }
{
    if !well_formed(case) {
        return Seen::malformed();
    }
    read(case, word(case, 8) as u32, word(case, 16) as u32)
}
