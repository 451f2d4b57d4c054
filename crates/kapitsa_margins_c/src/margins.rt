// The closing checks for C that list their margins, of document 02, m: 0 with the verdict, the measured gap and, where the joints are closed, each row with the smallest tolerance at which it still closes; or the refusal's number.
ghost use Rattle.std.specs.Prelude.{◌&&◌, length};
ghost use Rattle.kapitsa_joint.specs.Table.{table_of};
ghost use Rattle.kapitsa_joint.specs.declared.kind.Kind.TheVariants.{Position, Velocity};
ghost use Rattle.kapitsa_joint.specs.Centre.{centres_in};
ghost use Rattle.joint_refusals.specs.Refusals.{centres_finite};
ghost use Rattle.mass_operator.specs.Flat.{coefficients};
ghost use Rattle.rules.specs.Rows.{rules_in};
ghost use Rattle.check_range.specs.Closing.{closing_of, speeds_of};
ghost use Rattle.check_refusals.specs.Refusals.{passes3, table_lengths};
ghost use Rattle.check_work.specs.Work.{memory_of, work_lengths};
ghost use Rattle.closing_margins.specs.Held.{margins_lent};
ghost use Rattle.kapitsa_c.specs.Closing.{verdict_fits};
ghost use Rattle.kapitsa_margins_c.specs.Margins.{MarginsListed};

use closing_margins::{closing_margins, velocity_closing_margins};
use kapitsa_c::closing::{tell_verdict, verdict_fits};

// Of positions; refusals 3, 4, 27, 28, 6, 7 and 18. For n rows, b bodies and t rules, at most 64: numbers 27n, words 8n, masses 10b, centres 3b, rule_words 3t (dimension, first key, last key), rule_tolerances t, multipliers n;
// rule_numbers n (the rule of each row), verdict 1 (1 closed, 0 open) and gap 2 (the largest reach of linear and of angular rows), written where 0 is returned and nowhere else;
// margin_rows n (each row once: linear before angular, then the largest margin first, then the lower row) and margins n (beside each row its margin), written where 0 is returned with verdict 1 and nowhere else;
// impulses 6b, size_impulses 6b, values n, sizes n: this work memory is 0 afterwards, except after 3, which writes nothing.
#[unsafe(no_mangle)]
pub extern "C" fn kapitsa_closing_margins(
    numbers: &[f64],
    words: &[u32],
    masses: &[f64],
    centres: &[f64],
    rule_words: &[u32],
    rule_tolerances: &[f64],
    rows: u32,
    bodies: u32,
    multipliers: &[f64],
    rule_numbers: &mut [u32],
    margin_rows: &mut [u32],
    margins: &mut [f64],
    verdict: &mut [u32],
    gap: &mut [f64],
    impulses: &mut [f64],
    size_impulses: &mut [f64],
    values: &mut [f64],
    sizes: &mut [f64],
) -> u32
    ensures { MarginsListed (verdict_fits verdict.old gap.old && (margins_lent rows (length margin_rows.old) (length margins.old) && passes3 Position rows bodies (table_lengths numbers.now words.now masses.now centres.now multipliers.now rule_words.now rule_tolerances.now rule_numbers.old) (work_lengths (memory_of impulses.old size_impulses.old values.old sizes.old))))
        (rules_in rule_words.now rule_tolerances.now)
        (closing_of (table_of rows bodies numbers.now words.now masses.now) (coefficients multipliers.now) (rules_in rule_words.now rule_tolerances.now) (centres_finite (centres_in bodies centres.now)))
        verdict.old gap.old record { number = result; verdict = verdict.new; gap = gap.new } rule_numbers.old rule_numbers.new
        (memory_of impulses.old size_impulses.old values.old sizes.old)
        (memory_of impulses.new size_impulses.new values.new sizes.new)
        margin_rows.old margins.old margin_rows.new margins.new }
{
    if !verdict_fits(verdict, gap) {
        return 3;
    }
    let answer = closing_margins(
        rows,
        bodies,
        numbers,
        words,
        masses,
        centres,
        multipliers,
        rule_words,
        rule_tolerances,
        rule_numbers, // the rule of each row
        margin_rows, // the row at each place
        margins,
        impulses,
        size_impulses,
        values,
        sizes,
    );
    tell_verdict(answer, verdict, gap)
}

// Of velocities; refusals 3, 4, 27, 28, 6, 20, 7 and 18. For n rows, b bodies and t rules, at most 64: numbers 27n, words 8n, masses 10b, given n (the residual), rule_words 3t (dimension, first key, last key), rule_tolerances t, multipliers n; no centres;
// rule_numbers n (the rule of each row), verdict 1 (1 closed, 0 open) and gap 2 (the largest reach of linear and of angular rows), written where 0 is returned and nowhere else;
// margin_rows n (each row once: linear before angular, then the largest margin first, then the lower row) and margins n (beside each row its margin), written where 0 is returned with verdict 1 and nowhere else;
// impulses 6b, size_impulses 6b, values n, sizes n: this work memory is 0 afterwards, except after 3, which writes nothing.
#[unsafe(no_mangle)]
pub extern "C" fn kapitsa_velocity_closing_margins(
    numbers: &[f64],
    words: &[u32],
    masses: &[f64],
    given: &[f64],
    rule_words: &[u32],
    rule_tolerances: &[f64],
    rows: u32,
    bodies: u32,
    multipliers: &[f64],
    rule_numbers: &mut [u32],
    margin_rows: &mut [u32],
    margins: &mut [f64],
    verdict: &mut [u32],
    gap: &mut [f64],
    impulses: &mut [f64],
    size_impulses: &mut [f64],
    values: &mut [f64],
    sizes: &mut [f64],
) -> u32
    ensures { MarginsListed (verdict_fits verdict.old gap.old && (margins_lent rows (length margin_rows.old) (length margins.old) && passes3 Velocity rows bodies (table_lengths numbers.now words.now masses.now given.now multipliers.now rule_words.now rule_tolerances.now rule_numbers.old) (work_lengths (memory_of impulses.old size_impulses.old values.old sizes.old))))
        (rules_in rule_words.now rule_tolerances.now)
        (speeds_of (table_of rows bodies numbers.now words.now masses.now) (coefficients multipliers.now) (rules_in rule_words.now rule_tolerances.now) (coefficients given.now))
        verdict.old gap.old record { number = result; verdict = verdict.new; gap = gap.new } rule_numbers.old rule_numbers.new
        (memory_of impulses.old size_impulses.old values.old sizes.old)
        (memory_of impulses.new size_impulses.new values.new sizes.new)
        margin_rows.old margins.old margin_rows.new margins.new }
{
    if !verdict_fits(verdict, gap) {
        return 3;
    }
    let answer = velocity_closing_margins(
        rows,
        bodies,
        numbers,
        words,
        masses,
        given,
        multipliers,
        rule_words,
        rule_tolerances,
        rule_numbers,
        margin_rows,
        margins,
        impulses,
        size_impulses,
        values,
        sizes,
    );
    tell_verdict(answer, verdict, gap)
}
