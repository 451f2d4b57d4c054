// The closing check of either kind, once refusal 3 has passed.
ghost use Rattle.std.specs.Prelude.{◌≡◌, ◌*◌, ◌≤◌, length, true};
ghost use Rattle.loops.specs.Run.{going};
ghost use Rattle.refusals.specs.Told.{told};
ghost use Rattle.kapitsa_joint.specs.Table.{table_of};
ghost use Rattle.mass_operator.specs.Flat.{coefficients};
ghost use Rattle.rules.specs.Rows.{rules_in, rows_ruled};
ghost use Rattle.check_range.specs.Closing.{closing_for, GivenFrom};
ghost use Rattle.check_answer.specs.Answer.{check_of, named_by};
ghost use Rattle.check_work.specs.Work.{memory_of, Room};
ghost use Rattle.closing_check.specs.Checked.{verdict_in, Reached};

use check_answer::Verdict;
use check_measure::{largest_reaches, measure_reaches, rows_close};
use check_refusals::judge_table;
use check_work::measure_rows;
use kapitsa_joint::Kind;
use refusals::Refusal;
use rules::name_rules;

// From each row's reach: closed where every one is within its tolerance, with the largest of each dimension.
fn verdict(
    words: &[u32],
    reaches: &[f64],
    rule_words: &[u32],
    rule_tolerances: &[f64],
    rows: usize,
) -> Verdict
    requires rows_in_bounds { (8 * rows ≤ length words.now) × (rows ≤ length reaches.now) × (3 * length rule_tolerances.now ≤ length rule_words.now) }
    requires rows_value { rows_ruled (rules_in rule_words.now rule_tolerances.now) words.now rows ≡ true }
    ensures { going result ≡ verdict_in words.now reaches.now (rules_in rule_words.now rule_tolerances.now) rows }
{
    let gap = largest_reaches(words, reaches, rows);
    if rows_close(words, reaches, rule_words, rule_tolerances, rows) {
        return Verdict::Closed(gap);
    }
    Verdict::Open(gap)
}

// Once refusal 3 has passed: the other refusals, and the verdict.
pub fn judged_check(
    kind: Kind,
    rows: u32,
    bodies: u32,
    numbers: &[f64],
    words: &[u32],
    masses: &[f64],
    given: &[f64],
    multipliers: &[f64],
    rule_words: &[u32],
    rule_tolerances: &[f64],
    placed: bool,
    rule_numbers: &mut [u32],
    impulses: &mut [f64],
    size_impulses: &mut [f64],
    values: &mut [f64],
    sizes: &mut [f64],
) -> Result<Verdict, Refusal>
    requires room { Room rows bodies numbers.now words.now masses.now multipliers.now (memory_of impulses.old size_impulses.old values.old sizes.old) }
    requires rule_words_len { (length rule_words.now ≡ 3 * length rule_tolerances.now) × (length rule_tolerances.now ≤ 64) × (length rule_numbers.old ≡ rows) }
    requires rows_bound { (rows ≤ 512) × GivenFrom kind (length given.now) rows }
    ensures value { told result ≡ check_of true (closing_for kind (table_of rows bodies numbers.now words.now masses.now) (coefficients multipliers.now) (rules_in rule_words.now rule_tolerances.now) (coefficients given.now) placed) }
    ensures rule_numbers_after { rule_numbers.new ≡ named_by (told result) (closing_for kind (table_of rows bodies numbers.now words.now masses.now) (coefficients multipliers.now) (rules_in rule_words.now rule_tolerances.now) (coefficients given.now) placed) rule_numbers.old }
    ensures reached { Reached (told result) (closing_for kind (table_of rows bodies numbers.now words.now masses.now) (coefficients multipliers.now) (rules_in rule_words.now rule_tolerances.now) (coefficients given.now) placed) values.new }
{
    judge_table(
        kind,
        rows,
        bodies,
        numbers,
        words,
        masses,
        given,
        multipliers,
        rule_words,
        rule_tolerances,
        placed,
    )?;
    measure_rows(
        bodies as usize,
        numbers,
        words,
        masses,
        multipliers,
        impulses,
        size_impulses,
        values,
        sizes,
    );
    measure_reaches(kind, rows as usize, numbers, given, sizes, values);
    name_rules(words, rule_words, rule_tolerances, rule_numbers);
    Ok(verdict(words, values, rule_words, rule_tolerances, rows as usize))
}
