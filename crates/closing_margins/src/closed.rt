// The list of a check, and whether there is room for it.
ghost use Rattle.std.specs.Prelude.{◌≡◌, ◌≤◌, length};
ghost use Rattle.refusals.specs.Told.{told};
ghost use Rattle.margins_list.specs.Margins.{dimension_at, number_at};
ghost use Rattle.closing_margins.specs.Held.{margins_lent, ClosedSized, ClosedListed};

use check_answer::Verdict;
use margins_list::list_margins;
use refusals::Refusal;

// A place a row in both of the list's slices: of refusal 3.
pub fn lists_fit(rows: u32, margin_rows: usize, margins: usize) -> bool
    ensures { result ≡ margins_lent rows margin_rows margins }
{
    let n = rows as usize;
    (margin_rows == n) & (margins == n)
}

// Where the check is closed, its list from each row's reach; otherwise nothing is written.
pub fn list_closed(
    answer: Result<Verdict, Refusal>,
    words: &[u32],
    reaches: &[f64],
    rows: usize,
    margin_rows: &mut [u32],
    margins: &mut [f64],
)
    requires rows_bound { (rows ≤ 512) × (rows ≤ length reaches.now) × (length margin_rows.old ≡ rows) × (length margins.old ≡ rows) }
    requires closed_sized { ClosedSized (told answer) (number_at reaches.now) rows (length words.now) }
    ensures { ClosedListed (told answer) (dimension_at words.now) (number_at reaches.now) rows margin_rows.old margins.old margin_rows.new margins.new }
{
    match answer {
        Ok(Verdict::Closed(_)) => list_margins(words, reaches, rows, margin_rows, margins),
        Ok(Verdict::Open(_)) | Err(_) => {}
    }
}
