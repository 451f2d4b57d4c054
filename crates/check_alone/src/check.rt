// The check of positions and that of velocities.
ghost use Rattle.refusals.specs.Told.{told};
ghost use Rattle.kapitsa_joint.specs.Table.{table_of};
ghost use Rattle.kapitsa_joint.specs.declared.kind.Kind.TheVariants.{Position, Velocity};
ghost use Rattle.kapitsa_joint.specs.Centre.{centres_in};
ghost use Rattle.joint_refusals.specs.Refusals.{centres_finite};
ghost use Rattle.mass_operator.specs.Flat.{coefficients};
ghost use Rattle.rules.specs.Rows.{rules_in};
ghost use Rattle.check_range.specs.Closing.{closing_of, speeds_of};
ghost use Rattle.check_refusals.specs.Refusals.{given_fits, table_lengths};
ghost use Rattle.check_alone.specs.Checked.{AloneHeld};

use crate::memory::checked_in;
use check_answer::Verdict;
use kapitsa_joint::Kind;
use refusals::Refusal;

// Are the joints closed by these multipliers?
pub fn checked(
    n: u32,
    b: u32,
    numbers: &[f64],
    words: &[u32],
    masses: &[f64],
    centres: &[f64],
    multipliers: &[f64],
    rule_words: &[u32],
    rule_tolerances: &[f64],
    rule_numbers: &mut [u32],
) -> Result<Verdict, Refusal>
    ensures { AloneHeld (given_fits Position n b (table_lengths numbers.now words.now masses.now centres.now multipliers.now rule_words.now rule_tolerances.now rule_numbers.old)) (rules_in rule_words.now rule_tolerances.now)
        (closing_of (table_of n b numbers.now words.now masses.now) (coefficients multipliers.now) (rules_in rule_words.now rule_tolerances.now) (centres_finite (centres_in b centres.now))) (told result) rule_numbers.old rule_numbers.new }
{
    checked_in(
        Kind::Position,
        n,
        b,
        numbers,
        words,
        masses,
        centres,
        multipliers,
        rule_words,
        rule_tolerances,
        rule_numbers,
    )
}

// Are the speeds closed by these multipliers? Document 02, a: the residual, negated, stands in for the error.
pub fn velocity_checked(
    n: u32,
    b: u32,
    numbers: &[f64],
    words: &[u32],
    masses: &[f64],
    given: &[f64],
    multipliers: &[f64],
    rule_words: &[u32],
    rule_tolerances: &[f64],
    rule_numbers: &mut [u32],
) -> Result<Verdict, Refusal>
    ensures { AloneHeld (given_fits Velocity n b (table_lengths numbers.now words.now masses.now given.now multipliers.now rule_words.now rule_tolerances.now rule_numbers.old)) (rules_in rule_words.now rule_tolerances.now)
        (speeds_of (table_of n b numbers.now words.now masses.now) (coefficients multipliers.now) (rules_in rule_words.now rule_tolerances.now) (coefficients given.now)) (told result) rule_numbers.old rule_numbers.new }
{
    checked_in(
        Kind::Velocity,
        n,
        b,
        numbers,
        words,
        masses,
        given,
        multipliers,
        rule_words,
        rule_tolerances,
        rule_numbers,
    )
}
