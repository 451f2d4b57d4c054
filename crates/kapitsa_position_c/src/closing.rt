// The closing check for C: 0 with the verdict and the measured gap, or the refusal's number (3, 4, 27, 28, 6, 7 or 18).
ghost use Rattle.std.specs.Prelude.{◌&&◌};
ghost use Rattle.kapitsa_joint.specs.Table.{table_of};
ghost use Rattle.kapitsa_joint.specs.declared.kind.Kind.TheVariants.{Position};
ghost use Rattle.kapitsa_joint.specs.Centre.{centres_in};
ghost use Rattle.joint_refusals.specs.Refusals.{centres_finite};
ghost use Rattle.mass_operator.specs.Flat.{coefficients};
ghost use Rattle.rules.specs.Rows.{rules_in};
ghost use Rattle.check_range.specs.Closing.{closing_of};
ghost use Rattle.check_refusals.specs.Refusals.{passes3, table_lengths};
ghost use Rattle.check_work.specs.Work.{memory_of, work_lengths};
ghost use Rattle.kapitsa_c.specs.Closing.{verdict_fits, CheckTold};

// For n rows, b bodies and t rules, at most 64: numbers 27n, words 8n, masses 10b, centres 3b, rule_words 3t (dimension, first key, last key), rule_tolerances t, multipliers n;
// rule_numbers n (the rule of each row), verdict 1 (1 closed, 0 open) and gap 2 (the largest reach of linear and of angular rows), written where 0 is returned and nowhere else;
// impulses 6b, size_impulses 6b, values n, sizes n: this work memory is 0 afterwards, except after 3, which writes nothing.
#[unsafe(no_mangle)]
pub extern "C" fn kapitsa_closing_check(
    numbers: &[f64],
    words: &[u32],
    masses: &[f64],
    centres: &[f64],
    rule_words: &[u32],
    rule_tolerances: &[f64],
    rows: u32,
    bodies: u32,
    multipliers: &[f64],
    rule_numbers: &mut [u32],
    verdict: &mut [u32],
    gap: &mut [f64],
    impulses: &mut [f64],
    size_impulses: &mut [f64],
    values: &mut [f64],
    sizes: &mut [f64],
) -> u32
    ensures { CheckTold (verdict_fits verdict.old gap.old && passes3 Position rows bodies (table_lengths numbers.now words.now masses.now centres.now multipliers.now rule_words.now rule_tolerances.now rule_numbers.old) (work_lengths (memory_of impulses.old size_impulses.old values.old sizes.old)))
        (rules_in rule_words.now rule_tolerances.now)
        (closing_of (table_of rows bodies numbers.now words.now masses.now) (coefficients multipliers.now) (rules_in rule_words.now rule_tolerances.now) (centres_finite (centres_in bodies centres.now)))
        verdict.old gap.old record { number = result; verdict = verdict.new; gap = gap.new } rule_numbers.old rule_numbers.new
        (memory_of impulses.old size_impulses.old values.old sizes.old)
        (memory_of impulses.new size_impulses.new values.new sizes.new) }
{
    kapitsa_c::kapitsa_closing_check(
        numbers,
        words,
        masses,
        centres,
        rule_words,
        rule_tolerances,
        rows,
        bodies,
        multipliers,
        rule_numbers,
        verdict,
        gap,
        impulses,
        size_impulses,
        values,
        sizes,
    )
}
