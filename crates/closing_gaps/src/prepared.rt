// The check of either kind that gives each row's measured number, over lent tables, a lent list of multipliers and what is lent beside them.
ghost use Rattle.std.specs.Prelude.{◌&&◌, length};
ghost use Rattle.refusals.specs.Told.{told};
ghost use Rattle.rules.specs.Rows.{rules_in};
ghost use Rattle.check_refusals.specs.Refusals.{passes3, table_lengths};
ghost use Rattle.check_work.specs.Work.{memory_of, work_lengths};
ghost use Rattle.closing_check.specs.Beside.{closing_in};
ghost use Rattle.closing_gaps.specs.Gaps.{gaps_lent, GapsHeld};

use crate::keep::{gaps_fit, keep_gaps};
use check_answer::Verdict;
use check_refusals::{TableLengths, WorkLengths, fits};
use check_work::clear_work;
use closing_check::check::judged_check;
use closing_check::prepared::beside_placed;
use kapitsa_joint::Kind;
use refusals::Refusal;

// It answers as `check_prepared` does, with refusal 3 of the numbers' slice too. Where there is a verdict, closed or open, gaps has the number of each row; after a refusal it stays as it was.
pub fn gaps_prepared(
    kind: Kind,
    rows: u32,
    bodies: u32,
    numbers: &[f64],
    words: &[u32],
    masses: &[f64],
    beside: &[f64],
    multipliers: &[f64],
    rule_words: &[u32],
    rule_tolerances: &[f64],
    rule_numbers: &mut [u32],
    gaps: &mut [f64],
    impulses: &mut [f64],
    size_impulses: &mut [f64],
    values: &mut [f64],
    sizes: &mut [f64],
) -> Result<Verdict, Refusal>
    ensures { GapsHeld (gaps_lent rows (length gaps.old) && passes3 kind rows bodies (table_lengths numbers.now words.now masses.now beside.now multipliers.now rule_words.now rule_tolerances.now rule_numbers.old) (work_lengths (memory_of impulses.old size_impulses.old values.old sizes.old)))
        (rules_in rule_words.now rule_tolerances.now)
        (closing_in kind rows bodies numbers.now words.now masses.now beside.now multipliers.now (rules_in rule_words.now rule_tolerances.now)) (told result) rule_numbers.old rule_numbers.new
        (memory_of impulses.old size_impulses.old values.old sizes.old)
        (memory_of impulses.new size_impulses.new values.new sizes.new)
        gaps.old gaps.new }
{
    let table = TableLengths {
        numbers: numbers.len(),
        words: words.len(),
        masses: masses.len(),
        beside: beside.len(),
        multipliers: multipliers.len(),
        rule_words: rule_words.len(),
        rule_tolerances: rule_tolerances.len(),
        rule_numbers: rule_numbers.len(),
    };
    let work = WorkLengths {
        impulses: impulses.len(),
        size_impulses: size_impulses.len(),
        values: values.len(),
        sizes: sizes.len(),
    };
    let room = gaps_fit(rows, gaps.len());
    if !(room & fits(kind, rows, bodies, table, work)) {
        return Err(Refusal::Length);
    }
    let placed = beside_placed(kind, bodies, beside);
    let answer = judged_check(
        kind,
        rows,
        bodies,
        numbers,
        words,
        masses,
        beside,
        multipliers,
        rule_words,
        rule_tolerances,
        placed,
        rule_numbers,
        impulses,
        size_impulses,
        values,
        sizes,
    );
    keep_gaps(answer, values, gaps);
    clear_work(impulses, size_impulses, values, sizes);
    answer
}
