// The closing check for C: 0 with the verdict and the measured gap, or the refusal's number (3, 4, 27, 28, 6, 7 or 18).
ghost use Rattle.std.specs.Prelude.{◌≡◌, ◌&&◌, length};
ghost use Rattle.refusals.specs.Told.{told};
ghost use Rattle.kapitsa_joint.specs.Table.{table_of};
ghost use Rattle.kapitsa_joint.specs.declared.kind.Kind.TheVariants.{Position};
ghost use Rattle.kapitsa_joint.specs.Centre.{centres_in};
ghost use Rattle.joint_refusals.specs.Refusals.{centres_finite};
ghost use Rattle.mass_operator.specs.Flat.{coefficients};
ghost use Rattle.rules.specs.Rows.{rules_in};
ghost use Rattle.check_range.specs.Closing.{closing_of};
ghost use Rattle.check_refusals.specs.Refusals.{passes3, table_lengths};
ghost use Rattle.check_work.specs.Work.{memory_of, work_lengths};
ghost use Rattle.kapitsa_c.specs.Closing.{both, verdict_fits, verdict_told, CheckTold};

use check_answer::Verdict;
use closing_check::closing_check;
use kapitsa_joint::Maxima;
use refusals::Refusal;

// Refusal 3, of the slices that take the verdict and the gap: true where it does not apply.
pub fn verdict_fits(verdict: &[u32], gap: &[f64]) -> bool
    ensures { result ≡ verdict_fits verdict.now gap.now }
{
    (verdict.len() == 1) & (gap.len() == 2)
}

fn put_gap(measured: Maxima, gap: &mut [f64])
    requires { length gap.old ≡ 2 }
    ensures { gap.new ≡ both measured }
{
    gap[0] = measured.linear;
    gap[1] = measured.angular;
}

// The verdict and the gap; nothing where the answer is a refusal.
#[tactic(auto, using(crate::proofs::Verdicts::set_only), unfolding(crate::specs::Closing::verdict_told))]
pub fn tell_verdict(answer: Result<Verdict, Refusal>, verdict: &mut [u32], gap: &mut [f64]) -> u32
    requires { (length verdict.old ≡ 1) × (length gap.old ≡ 2) }
    ensures { record { number = result; verdict = verdict.new; gap = gap.new } ≡ verdict_told (told answer) verdict.old gap.old }
{
    match answer {
        Ok(Verdict::Closed(measured)) => {
            verdict[0] = 1;
            put_gap(measured, gap);
            0
        }
        Ok(Verdict::Open(measured)) => {
            verdict[0] = 0;
            put_gap(measured, gap);
            0
        }
        Err(refusal) => refusal.number(),
    }
}

// For n rows, b bodies and t rules, at most 64: numbers 27n, words 8n, masses 10b, centres 3b, rule_words 3t (dimension, first key, last key), rule_tolerances t, multipliers n;
// rule_numbers n (the rule of each row), verdict 1 (1 closed, 0 open) and gap 2 (the largest reach of linear and of angular rows), written where 0 is returned and nowhere else;
// impulses 6b, size_impulses 6b, values n, sizes n: this work memory is 0 afterwards, except after 3, which writes nothing.
pub fn kapitsa_closing_check(
    numbers: &[f64],
    words: &[u32],
    masses: &[f64],
    centres: &[f64],
    rule_words: &[u32],
    rule_tolerances: &[f64],
    rows: u32,
    bodies: u32,
    multipliers: &[f64],
    rule_numbers: &mut [u32],
    verdict: &mut [u32],
    gap: &mut [f64],
    impulses: &mut [f64],
    size_impulses: &mut [f64],
    values: &mut [f64],
    sizes: &mut [f64],
) -> u32
    ensures { CheckTold (verdict_fits verdict.old gap.old && passes3 Position rows bodies (table_lengths numbers.now words.now masses.now centres.now multipliers.now rule_words.now rule_tolerances.now rule_numbers.old) (work_lengths (memory_of impulses.old size_impulses.old values.old sizes.old)))
        (rules_in rule_words.now rule_tolerances.now)
        (closing_of (table_of rows bodies numbers.now words.now masses.now) (coefficients multipliers.now) (rules_in rule_words.now rule_tolerances.now) (centres_finite (centres_in bodies centres.now)))
        verdict.old gap.old record { number = result; verdict = verdict.new; gap = gap.new } rule_numbers.old rule_numbers.new
        (memory_of impulses.old size_impulses.old values.old sizes.old)
        (memory_of impulses.new size_impulses.new values.new sizes.new) }
{
    if !verdict_fits(verdict, gap) {
        return 3;
    }
    let answer = closing_check(
        rows,
        bodies,
        numbers,
        words,
        masses,
        centres,
        multipliers,
        rule_words,
        rule_tolerances,
        rule_numbers,
        impulses,
        size_impulses,
        values,
        sizes,
    );
    tell_verdict(answer, verdict, gap)
}
