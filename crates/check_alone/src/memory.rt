// The check of either kind: refusal 3 of what is lent, then the work memory. `beside` is of positions the centres and of velocities the residual.
ghost use Rattle.std.specs.Prelude.{◌≡◌, true, ◌*◌, ◌≤◌};
ghost use Rattle.refusals.specs.Told.{told};
ghost use Rattle.rules.specs.Rows.{rules_in};
ghost use Rattle.check_refusals.specs.Refusals.{given_fits, table_lengths};
ghost use Rattle.closing_check.specs.Beside.{closing_in};
ghost use Rattle.check_alone.specs.Checked.{AloneHeld};

use check_answer::Verdict;
use check_refusals::{TableLengths, given_fits};
use closing_check::check_prepared;
use kapitsa_joint::Kind;
use refusals::Refusal;

// With memory for ROWS rows and, six numbers a body, for BODY_NUMBERS.
fn with_memory<const ROWS: usize, const BODY_NUMBERS: usize>(
    kind: Kind,
    n: u32,
    b: u32,
    numbers: &[f64],
    words: &[u32],
    masses: &[f64],
    beside: &[f64],
    multipliers: &[f64],
    rule_words: &[u32],
    rule_tolerances: &[f64],
    rule_numbers: &mut [u32],
) -> Result<Verdict, Refusal>
    requires fits { given_fits kind n b (table_lengths numbers.now words.now masses.now beside.now multipliers.now rule_words.now rule_tolerances.now rule_numbers.old) ≡ true }
    requires room { (n ≤ ROWS) × (6 * b ≤ BODY_NUMBERS) }
    requires memory { (ROWS ≤ 512) × (BODY_NUMBERS ≤ 1536) }
    ensures { AloneHeld (given_fits kind n b (table_lengths numbers.now words.now masses.now beside.now multipliers.now rule_words.now rule_tolerances.now rule_numbers.old)) (rules_in rule_words.now rule_tolerances.now)
        (closing_in kind n b numbers.now words.now masses.now beside.now multipliers.now (rules_in rule_words.now rule_tolerances.now)) (told result) rule_numbers.old rule_numbers.new }
{
    let mut impulses: [f64; BODY_NUMBERS] = [0.0; BODY_NUMBERS];
    let mut size_impulses: [f64; BODY_NUMBERS] = [0.0; BODY_NUMBERS];
    let mut values: [f64; ROWS] = [0.0; ROWS];
    let mut sizes: [f64; ROWS] = [0.0; ROWS];
    let rows = n as usize;
    let bodies = b as usize;
    let body_numbers = 6 * bodies;
    check_prepared(
        kind,
        n,
        b,
        numbers,
        words,
        masses,
        beside,
        multipliers,
        rule_words,
        rule_tolerances,
        rule_numbers,
        &mut impulses[..body_numbers],
        &mut size_impulses[..body_numbers],
        &mut values[..rows],
        &mut sizes[..rows],
    )
}

// Refusal 3 of what is lent, then the check. A call refused by 3 uses no memory.
pub(crate) fn checked_within<const ROWS: usize, const BODY_NUMBERS: usize>(
    kind: Kind,
    n: u32,
    b: u32,
    numbers: &[f64],
    words: &[u32],
    masses: &[f64],
    beside: &[f64],
    multipliers: &[f64],
    rule_words: &[u32],
    rule_tolerances: &[f64],
    rule_numbers: &mut [u32],
) -> Result<Verdict, Refusal>
    requires memory { (ROWS ≤ 512) × (BODY_NUMBERS ≤ 1536) }
    requires room { given_fits kind n b (table_lengths numbers.now words.now masses.now beside.now multipliers.now rule_words.now rule_tolerances.now rule_numbers.old) ≡ true → (n ≤ ROWS) × (6 * b ≤ BODY_NUMBERS) }
    ensures { AloneHeld (given_fits kind n b (table_lengths numbers.now words.now masses.now beside.now multipliers.now rule_words.now rule_tolerances.now rule_numbers.old)) (rules_in rule_words.now rule_tolerances.now)
        (closing_in kind n b numbers.now words.now masses.now beside.now multipliers.now (rules_in rule_words.now rule_tolerances.now)) (told result) rule_numbers.old rule_numbers.new }
{
    let table = TableLengths {
        numbers: numbers.len(),
        words: words.len(),
        masses: masses.len(),
        beside: beside.len(),
        multipliers: multipliers.len(),
        rule_words: rule_words.len(),
        rule_tolerances: rule_tolerances.len(),
        rule_numbers: rule_numbers.len(),
    };
    if !given_fits(kind, n, b, table) {
        return Err(Refusal::Length);
    }
    with_memory::<ROWS, BODY_NUMBERS>(
        kind,
        n,
        b,
        numbers,
        words,
        masses,
        beside,
        multipliers,
        rule_words,
        rule_tolerances,
        rule_numbers,
    )
}

// In memory for the largest table: 512 rows and 256 bodies.
pub fn checked_in(
    kind: Kind,
    n: u32,
    b: u32,
    numbers: &[f64],
    words: &[u32],
    masses: &[f64],
    beside: &[f64],
    multipliers: &[f64],
    rule_words: &[u32],
    rule_tolerances: &[f64],
    rule_numbers: &mut [u32],
) -> Result<Verdict, Refusal>
    ensures { AloneHeld (given_fits kind n b (table_lengths numbers.now words.now masses.now beside.now multipliers.now rule_words.now rule_tolerances.now rule_numbers.old)) (rules_in rule_words.now rule_tolerances.now)
        (closing_in kind n b numbers.now words.now masses.now beside.now multipliers.now (rules_in rule_words.now rule_tolerances.now)) (told result) rule_numbers.old rule_numbers.new }
{
    checked_within::<512, 1536>(
        kind,
        n,
        b,
        numbers,
        words,
        masses,
        beside,
        multipliers,
        rule_words,
        rule_tolerances,
        rule_numbers,
    )
}
