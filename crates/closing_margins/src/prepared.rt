// The check of either kind that lists its margins, over lent tables, a lent list of multipliers and what is lent beside them.
ghost use Rattle.std.specs.Prelude.{◌≡◌, true, ◌&&◌, ◌≤◌, length};
ghost use Rattle.refusals.specs.Told.{told};
ghost use Rattle.rules.specs.Rows.{rules_in};
ghost use Rattle.check_refusals.specs.Refusals.{passes3, table_lengths};
ghost use Rattle.check_work.specs.Work.{memory_of, work_lengths};
ghost use Rattle.closing_check.specs.Beside.{closing_in};
ghost use Rattle.closing_margins.specs.Held.{margins_lent, MarginsHeld};

use crate::closed::{list_closed, lists_fit};
use check_answer::Verdict;
use closing_gaps::gaps_prepared;
use kapitsa_joint::Kind;
use refusals::Refusal;

// Each row's number first, in memory of the caller's, and of a closed check its list.
fn margins_with(
    kind: Kind,
    rows: u32,
    bodies: u32,
    numbers: &[f64],
    words: &[u32],
    masses: &[f64],
    beside: &[f64],
    multipliers: &[f64],
    rule_words: &[u32],
    rule_tolerances: &[f64],
    rule_numbers: &mut [u32],
    margin_rows: &mut [u32],
    margins: &mut [f64],
    gaps: &mut [f64],
    impulses: &mut [f64],
    size_impulses: &mut [f64],
    values: &mut [f64],
    sizes: &mut [f64],
) -> Result<Verdict, Refusal>
    requires { (rows ≤ 512) × (margins_lent rows (length margin_rows.old) (length margins.old) ≡ true) × (length gaps.old ≡ rows) }
    ensures { MarginsHeld (margins_lent rows (length margin_rows.old) (length margins.old) && passes3 kind rows bodies (table_lengths numbers.now words.now masses.now beside.now multipliers.now rule_words.now rule_tolerances.now rule_numbers.old) (work_lengths (memory_of impulses.old size_impulses.old values.old sizes.old)))
        (rules_in rule_words.now rule_tolerances.now)
        (closing_in kind rows bodies numbers.now words.now masses.now beside.now multipliers.now (rules_in rule_words.now rule_tolerances.now)) (told result) rule_numbers.old rule_numbers.new
        (memory_of impulses.old size_impulses.old values.old sizes.old)
        (memory_of impulses.new size_impulses.new values.new sizes.new)
        margin_rows.old margins.old margin_rows.new margins.new }
{
    let answer = gaps_prepared(
        kind,
        rows,
        bodies,
        numbers,
        words,
        masses,
        beside,
        multipliers,
        rule_words,
        rule_tolerances,
        rule_numbers,
        gaps,
        impulses,
        size_impulses,
        values,
        sizes,
    );
    list_closed(answer, words, gaps, rows as usize, margin_rows, margins);
    answer
}

// It answers as `check_prepared` does, with refusal 3 of the list's slices too. Where it closes, margin_rows has each row once, in the list's order, and margins beside each row its number; otherwise both stay as they were.
pub fn margins_prepared(
    kind: Kind,
    rows: u32,
    bodies: u32,
    numbers: &[f64],
    words: &[u32],
    masses: &[f64],
    beside: &[f64],
    multipliers: &[f64],
    rule_words: &[u32],
    rule_tolerances: &[f64],
    rule_numbers: &mut [u32],
    margin_rows: &mut [u32],
    margins: &mut [f64],
    impulses: &mut [f64],
    size_impulses: &mut [f64],
    values: &mut [f64],
    sizes: &mut [f64],
) -> Result<Verdict, Refusal>
    ensures { MarginsHeld (margins_lent rows (length margin_rows.old) (length margins.old) && passes3 kind rows bodies (table_lengths numbers.now words.now masses.now beside.now multipliers.now rule_words.now rule_tolerances.now rule_numbers.old) (work_lengths (memory_of impulses.old size_impulses.old values.old sizes.old)))
        (rules_in rule_words.now rule_tolerances.now)
        (closing_in kind rows bodies numbers.now words.now masses.now beside.now multipliers.now (rules_in rule_words.now rule_tolerances.now)) (told result) rule_numbers.old rule_numbers.new
        (memory_of impulses.old size_impulses.old values.old sizes.old)
        (memory_of impulses.new size_impulses.new values.new sizes.new)
        margin_rows.old margins.old margin_rows.new margins.new }
{
    if !(lists_fit(rows, margin_rows.len(), margins.len()) & (rows <= 512)) {
        return Err(Refusal::Length);
    }
    let mut gaps: [f64; 512] = [0.0; 512];
    let n = rows as usize;
    margins_with(
        kind,
        rows,
        bodies,
        numbers,
        words,
        masses,
        beside,
        multipliers,
        rule_words,
        rule_tolerances,
        rule_numbers,
        margin_rows,
        margins,
        &mut gaps[..n],
        impulses,
        size_impulses,
        values,
        sizes,
    )
}
