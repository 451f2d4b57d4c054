// The two entry points: the margins of a closed check of positions, document 02, m, and of velocities.
ghost use Rattle.std.specs.Prelude.{◌&&◌, length};
ghost use Rattle.refusals.specs.Told.{told};
ghost use Rattle.kapitsa_joint.specs.Table.{table_of};
ghost use Rattle.kapitsa_joint.specs.declared.kind.Kind.TheVariants.{Position, Velocity};
ghost use Rattle.kapitsa_joint.specs.Centre.{centres_in};
ghost use Rattle.joint_refusals.specs.Refusals.{centres_finite};
ghost use Rattle.mass_operator.specs.Flat.{coefficients};
ghost use Rattle.rules.specs.Rows.{rules_in};
ghost use Rattle.check_range.specs.Closing.{closing_of, speeds_of};
ghost use Rattle.check_refusals.specs.Refusals.{passes3, table_lengths};
ghost use Rattle.check_work.specs.Work.{memory_of, work_lengths};
ghost use Rattle.closing_margins.specs.Held.{margins_lent, MarginsHeld};

use crate::prepared::margins_prepared;
use check_answer::Verdict;
use kapitsa_joint::Kind;
use refusals::Refusal;

// Are the joints closed by these multipliers and, if so, how near was each to open?
pub fn closing_margins(
    rows: u32,
    bodies: u32,
    numbers: &[f64],
    words: &[u32],
    masses: &[f64],
    centres: &[f64],
    multipliers: &[f64],
    rule_words: &[u32],
    rule_tolerances: &[f64],
    rule_numbers: &mut [u32],
    margin_rows: &mut [u32],
    margins: &mut [f64],
    impulses: &mut [f64],
    size_impulses: &mut [f64],
    values: &mut [f64],
    sizes: &mut [f64],
) -> Result<Verdict, Refusal>
    ensures { MarginsHeld (margins_lent rows (length margin_rows.old) (length margins.old) && passes3 Position rows bodies (table_lengths numbers.now words.now masses.now centres.now multipliers.now rule_words.now rule_tolerances.now rule_numbers.old) (work_lengths (memory_of impulses.old size_impulses.old values.old sizes.old)))
        (rules_in rule_words.now rule_tolerances.now)
        (closing_of (table_of rows bodies numbers.now words.now masses.now) (coefficients multipliers.now) (rules_in rule_words.now rule_tolerances.now) (centres_finite (centres_in bodies centres.now))) (told result) rule_numbers.old rule_numbers.new
        (memory_of impulses.old size_impulses.old values.old sizes.old)
        (memory_of impulses.new size_impulses.new values.new sizes.new)
        margin_rows.old margins.old margin_rows.new margins.new }
{
    margins_prepared(
        Kind::Position,
        rows,
        bodies,
        numbers,
        words,
        masses,
        centres,
        multipliers,
        rule_words,
        rule_tolerances,
        rule_numbers,
        margin_rows,
        margins,
        impulses,
        size_impulses,
        values,
        sizes,
    )
}

// The same of speeds: the residual, negated, stands in for the error.
pub fn velocity_closing_margins(
    rows: u32,
    bodies: u32,
    numbers: &[f64],
    words: &[u32],
    masses: &[f64],
    given: &[f64],
    multipliers: &[f64],
    rule_words: &[u32],
    rule_tolerances: &[f64],
    rule_numbers: &mut [u32],
    margin_rows: &mut [u32],
    margins: &mut [f64],
    impulses: &mut [f64],
    size_impulses: &mut [f64],
    values: &mut [f64],
    sizes: &mut [f64],
) -> Result<Verdict, Refusal>
    ensures { MarginsHeld (margins_lent rows (length margin_rows.old) (length margins.old) && passes3 Velocity rows bodies (table_lengths numbers.now words.now masses.now given.now multipliers.now rule_words.now rule_tolerances.now rule_numbers.old) (work_lengths (memory_of impulses.old size_impulses.old values.old sizes.old)))
        (rules_in rule_words.now rule_tolerances.now)
        (speeds_of (table_of rows bodies numbers.now words.now masses.now) (coefficients multipliers.now) (rules_in rule_words.now rule_tolerances.now) (coefficients given.now)) (told result) rule_numbers.old rule_numbers.new
        (memory_of impulses.old size_impulses.old values.old sizes.old)
        (memory_of impulses.new size_impulses.new values.new sizes.new)
        margin_rows.old margins.old margin_rows.new margins.new }
{
    margins_prepared(
        Kind::Velocity,
        rows,
        bodies,
        numbers,
        words,
        masses,
        given,
        multipliers,
        rule_words,
        rule_tolerances,
        rule_numbers,
        margin_rows,
        margins,
        impulses,
        size_impulses,
        values,
        sizes,
    )
}
