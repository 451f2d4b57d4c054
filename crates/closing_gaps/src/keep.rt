// Each row's number, taken out of the check's work memory, and whether there is room for it.
ghost use Rattle.std.specs.Prelude.{◌≡◌, length};
ghost use Rattle.refusals.specs.Told.{told};
ghost use Rattle.closing_gaps.specs.Gaps.{gaps_lent, kept_by};

use check_answer::Verdict;
use loops::copy;
use refusals::Refusal;

// A place a row: of refusal 3.
pub fn gaps_fit(rows: u32, gaps: usize) -> bool
    ensures { result ≡ gaps_lent rows gaps }
{
    gaps == rows as usize
}

// Where there is a verdict, each row's reach; after a refusal nothing is written.
pub fn keep_gaps(answer: Result<Verdict, Refusal>, reaches: &[f64], gaps: &mut [f64])
    requires { length gaps.old ≡ length reaches.now }
    ensures { gaps.new ≡ kept_by (told answer) reaches.now gaps.old }
{
    if answer.is_ok() {
        copy(gaps, reaches);
    }
}
