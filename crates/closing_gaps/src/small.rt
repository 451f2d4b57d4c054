// The measured numbers of a small table of positions, at most 128 rows and 64 bodies, with work memory of its own.
ghost use Rattle.std.specs.Prelude.{◌≡◌, true, ◌&&◌, ◌≤◌, length};
ghost use Rattle.refusals.specs.Told.{told};
ghost use Rattle.kapitsa_joint.specs.Table.{table_of};
ghost use Rattle.kapitsa_joint.specs.declared.kind.Kind.TheVariants.{Position};
ghost use Rattle.kapitsa_joint.specs.Centre.{centres_in};
ghost use Rattle.joint_refusals.specs.Refusals.{centres_finite};
ghost use Rattle.mass_operator.specs.Flat.{coefficients};
ghost use Rattle.rules.specs.Rows.{rules_in};
ghost use Rattle.check_range.specs.Closing.{closing_of};
ghost use Rattle.check_refusals.specs.Refusals.{given_fits, table_lengths};
ghost use Rattle.closing_gaps.specs.Gaps.{gaps_lent, GapsAlone};

use crate::entries::closing_gaps;
use check_answer::Verdict;
use check_refusals::{TableLengths, given_fits};
use kapitsa_joint::Kind;
use refusals::Refusal;

// With memory for 128 rows and 64 bodies.
fn with_small_memory(
    n: u32,
    b: u32,
    numbers: &[f64],
    words: &[u32],
    masses: &[f64],
    centres: &[f64],
    multipliers: &[f64],
    rule_words: &[u32],
    rule_tolerances: &[f64],
    rule_numbers: &mut [u32],
    gaps: &mut [f64],
) -> Result<Verdict, Refusal>
    requires rule_numbers_value { given_fits Position n b (table_lengths numbers.now words.now masses.now centres.now multipliers.now rule_words.now rule_tolerances.now rule_numbers.old) ≡ true }
    requires n_bound { (n ≤ 128) × (b ≤ 64) }
    ensures { GapsAlone (gaps_lent n (length gaps.old) && given_fits Position n b (table_lengths numbers.now words.now masses.now centres.now multipliers.now rule_words.now rule_tolerances.now rule_numbers.old))
        (rules_in rule_words.now rule_tolerances.now)
        (closing_of (table_of n b numbers.now words.now masses.now) (coefficients multipliers.now) (rules_in rule_words.now rule_tolerances.now) (centres_finite (centres_in b centres.now))) (told result) rule_numbers.old rule_numbers.new
        gaps.old gaps.new }
{
    let mut impulses: [f64; 384] = [0.0; 384];
    let mut size_impulses: [f64; 384] = [0.0; 384];
    let mut values: [f64; 128] = [0.0; 128];
    let mut sizes: [f64; 128] = [0.0; 128];
    let rows = n as usize;
    let bodies = b as usize;
    let body_numbers = 6 * bodies;
    closing_gaps(
        n,
        b,
        numbers,
        words,
        masses,
        centres,
        multipliers,
        rule_words,
        rule_tolerances,
        rule_numbers,
        gaps,
        &mut impulses[..body_numbers],
        &mut size_impulses[..body_numbers],
        &mut values[..rows],
        &mut sizes[..rows],
    )
}

// It answers as `closing_gaps` does, which also judges the numbers' slice.
pub fn gaps_small(
    n: u32,
    b: u32,
    numbers: &[f64],
    words: &[u32],
    masses: &[f64],
    centres: &[f64],
    multipliers: &[f64],
    rule_words: &[u32],
    rule_tolerances: &[f64],
    rule_numbers: &mut [u32],
    gaps: &mut [f64],
) -> Result<Verdict, Refusal>
    requires { (n ≤ 128) × (b ≤ 64) }
    ensures { GapsAlone (gaps_lent n (length gaps.old) && given_fits Position n b (table_lengths numbers.now words.now masses.now centres.now multipliers.now rule_words.now rule_tolerances.now rule_numbers.old))
        (rules_in rule_words.now rule_tolerances.now)
        (closing_of (table_of n b numbers.now words.now masses.now) (coefficients multipliers.now) (rules_in rule_words.now rule_tolerances.now) (centres_finite (centres_in b centres.now))) (told result) rule_numbers.old rule_numbers.new
        gaps.old gaps.new }
{
    let table = TableLengths {
        numbers: numbers.len(),
        words: words.len(),
        masses: masses.len(),
        beside: centres.len(),
        multipliers: multipliers.len(),
        rule_words: rule_words.len(),
        rule_tolerances: rule_tolerances.len(),
        rule_numbers: rule_numbers.len(),
    };
    if !given_fits(Kind::Position, n, b, table) {
        return Err(Refusal::Length);
    }
    with_small_memory(
        n,
        b,
        numbers,
        words,
        masses,
        centres,
        multipliers,
        rule_words,
        rule_tolerances,
        rule_numbers,
        gaps,
    )
}
