// The check of a small table, at most 128 rows and 64 bodies, in memory of that size.
ghost use Rattle.std.specs.Prelude.{◌≤◌};
ghost use Rattle.refusals.specs.Told.{told};
ghost use Rattle.kapitsa_joint.specs.Table.{table_of};
ghost use Rattle.kapitsa_joint.specs.declared.kind.Kind.TheVariants.{Position};
ghost use Rattle.kapitsa_joint.specs.Centre.{centres_in};
ghost use Rattle.joint_refusals.specs.Refusals.{centres_finite};
ghost use Rattle.mass_operator.specs.Flat.{coefficients};
ghost use Rattle.check_range.specs.Closing.{closing_of};
ghost use Rattle.check_refusals.specs.Refusals.{given_fits, table_lengths};
ghost use Rattle.rules.specs.Rows.{rules_in};
ghost use Rattle.check_alone.specs.Checked.{AloneHeld};

use crate::memory::checked_within;
use check_answer::Verdict;
use kapitsa_joint::Kind;
use refusals::Refusal;

// Are the joints of a small table closed by these multipliers? It answers as `checked` does.
pub fn checked_small(
    n: u32,
    b: u32,
    numbers: &[f64],
    words: &[u32],
    masses: &[f64],
    centres: &[f64],
    multipliers: &[f64],
    rule_words: &[u32],
    rule_tolerances: &[f64],
    rule_numbers: &mut [u32],
) -> Result<Verdict, Refusal>
    requires { (n ≤ 128) × (b ≤ 64) }
    ensures { AloneHeld (given_fits Position n b (table_lengths numbers.now words.now masses.now centres.now multipliers.now rule_words.now rule_tolerances.now rule_numbers.old)) (rules_in rule_words.now rule_tolerances.now)
        (closing_of (table_of n b numbers.now words.now masses.now) (coefficients multipliers.now) (rules_in rule_words.now rule_tolerances.now) (centres_finite (centres_in b centres.now))) (told result) rule_numbers.old rule_numbers.new }
{
    checked_within::<128, 384>(
        Kind::Position,
        n,
        b,
        numbers,
        words,
        masses,
        centres,
        multipliers,
        rule_words,
        rule_tolerances,
        rule_numbers,
    )
}
