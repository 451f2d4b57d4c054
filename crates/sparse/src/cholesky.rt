// Incomplete Cholesky on a pattern: the second half of build_incomplete_cholesky_preconditioner_into of pcg.rs.
ghost use Rattle.std.specs.Prelude.{◌≡◌, ◌+◌, ◌<◌, ◌≤◌, length, get_or, set, true};
ghost use Rattle.std.specs.Float.{nan};
ghost use Rattle.binary64.specs.Answer.{root_of};
ghost use Rattle.refusals.specs.declared.Refusal.TheVariants.{Pivot};
ghost use Rattle.sparse.specs.Cholesky.{reduced_of, fit, root_value, column_turn, reduced_run, row_turn, factor_run, or_thirteen};
ghost use Rattle.sparse.specs.Kept.{start, Kept, Row, numbers};
ghost use Rattle.sparse.specs.Marks.{AtMost, Marked, less_at};
ghost use Rattle.sparse.specs.Answers.{column_out, reduced_out, factor_out, factored_out, FactorFree};

use crate::places::{column, earlier, number, row, write};
use refusals::Refusal;

// A factor is not finite, or a pivot is not fit: refusal 13.
#[derive(Clone, Copy, Debug, PartialEq, Eq)]
pub struct Unfit;

impl From<Unfit> for Refusal {
    ghost from_gives = { λ _ refusal. refusal ≡ Pivot };

    fn from(_unfit: Unfit) -> Refusal {
        Refusal::Pivot
    }
}

// Finite and above MIN.
#[tactic(auto, unfolding(crate::specs::Cholesky::fit))]
pub fn is_fit(x: f64) -> bool
    ensures { result ≡ fit x }
{
    binary64::is_finite(x) && !(x <= binary64::MIN_POSITIVE)
}

// The root of a pivot that is fit, where refusal 19 cannot be met.
pub fn pivot_root(x: f64) -> f64
    requires { fit x ≡ true }
    ensures { result ≡ root_value (root_of x) }
{
    binary64::root(x).unwrap_or(x)
}

// `value` less the product of the factors in column `columns[q]`, of the row that has it at `q` and of the row that is marked from `first` on
#[tactic(auto, unfolding(crate::specs::Marks::less_at))]
fn less_at(value: f64, columns: &[u32], values: &[f64], marks: &[u32], first: u32, q: u32) -> f64
    requires q_in_bounds { q < length columns.now }
    requires q_in_bounds_2 { q < length values.now }
    requires q_in_bounds_3 { get_or columns.now q 0 < length marks.now }
    requires at_most { AtMost marks.now (length values.now) }
    ensures { result ≡ less_at value columns.now values.now marks.now first q }
{
    let k = column(columns, q);
    let mark = marks[k];
    if first < mark {
        return value - number(values, mark - 1) * number(values, q);
    }
    value
}

// `value` less the products over the earlier columns that row `i`, marked up to its place `p`, and the row of the column there share
fn reduced(
    value: f64,
    starts: &[u32],
    columns: &[u32],
    values: &[f64],
    marks: &[u32],
    i: usize,
    first: u32,
    end: u32,
    p: u32,
    j: usize,
) -> f64
    requires row { Row starts.now columns.now i first end }
    requires values_len { length values.now ≡ length columns.now }
    requires starts_len { length starts.now ≡ length marks.now + 1 }
    requires first_le_p { first ≤ p }
    requires p_lt_end { p < end }
    requires j_value { j ≡ get_or columns.now p 0 }
    requires j_lt_i { j < i }
    requires marked { Marked columns.now first p marks.now }
    ensures { result ≡ reduced_of (numbers starts.now columns.now values.now) i j value }
{
    let other = row(starts, columns, j);
    let mut rest = value;
    for q in other.first..other.end {
        rest = less_at(rest, columns, values, marks, first, q);
    }
    rest
}

// the factor at place `p` of row `i`, in the place of its pair value; its column is marked
fn factor_at(
    starts: &[u32],
    columns: &[u32],
    values: &mut [f64],
    pivots: &[f64],
    marks: &mut [u32],
    i: usize,
    first: u32,
    end: u32,
    p: u32,
    mark: u32,
) -> Result<(), Unfit>
    requires row { Row starts.now columns.now i first end }
    requires values_len { length values.old ≡ length columns.now }
    requires starts_len { length starts.now ≡ length marks.old + 1 }
    requires pivots_len { length pivots.now ≡ length marks.old }
    requires first_le_p { first ≤ p }
    requires p_lt_end { p < end }
    requires mark_value { mark ≡ p + 1 }
    requires marked { Marked columns.now first p marks.old }
    ensures values_value { column_turn pivots.now i (get_or columns.now p 0)
        (numbers starts.now columns.now values.old)
        ≡ column_out result (numbers starts.now columns.now values.new) }
    ensures marked_2 { Marked columns.now first (p + 1) marks.new }
    ensures values_after { values.new ≡ set values.old p (get_or values.new p nan) }
{
    let j = earlier(columns, i, first, end, p);
    let value = number(values, p);
    let factor = reduced(value, starts, columns, values, marks, i, first, end, p, j) / pivots[j];
    write(values, p, factor);
    marks[j] = mark;
    if !binary64::is_finite(factor) {
        return Err(Unfit);
    }
    Ok(())
}

// The factors of row `i`, and its diagonal less their squares: each is subtracted when it is made.
fn factor_row(
    starts: &[u32],
    columns: &[u32],
    values: &mut [f64],
    pivots: &[f64],
    marks: &mut [u32],
    i: usize,
) -> Result<f64, Unfit>
    requires kept { Kept starts.now columns.now }
    requires values_len { length values.old ≡ length columns.now }
    requires starts_len { length starts.now ≡ length marks.old + 1 }
    requires pivots_len { length pivots.now ≡ length marks.old }
    requires i_in_bounds { i < length marks.old }
    requires at_most { AtMost marks.old (start starts.now i) }
    ensures values_value { reduced_run pivots.now i (numbers starts.now columns.now values.old)
        ≡ reduced_out result (numbers starts.now columns.now values.new) }
    ensures at_most_2 { AtMost marks.new (start starts.now (i + 1)) }
{
    let row = row(starts, columns, i);
    let first = row.first;
    let end = row.end;
    let mut rest = pivots[i];
    for p in first..end {
        let mark = p + 1;
        factor_at(
            starts, columns, values, pivots, marks, i, first, end, p, mark,
        )?;
        let factor = number(values, p);
        rest = rest - factor * factor;
    }
    Ok(rest)
}

// row `i`: its diagonal stands in `pivots[i]`, and its pivot takes that place
fn row_at(
    starts: &[u32],
    columns: &[u32],
    values: &mut [f64],
    pivots: &mut [f64],
    marks: &mut [u32],
    i: usize,
) -> Result<(), Unfit>
    requires kept { Kept starts.now columns.now }
    requires values_len { length values.old ≡ length columns.now }
    requires starts_len { length starts.now ≡ length marks.old + 1 }
    requires pivots_len { length pivots.old ≡ length marks.old }
    requires i_in_bounds { i < length marks.old }
    requires at_most { AtMost marks.old (start starts.now i) }
    ensures pivots_value { row_turn i (numbers starts.now columns.now values.old, pivots.old)
        ≡ factor_out result (numbers starts.now columns.now values.new) pivots.new }
    ensures at_most_2 { AtMost marks.new (start starts.now (i + 1)) }
{
    let rest = factor_row(starts, columns, values, pivots, marks, i)?;
    if !is_fit(rest) {
        return Err(Unfit);
    }
    let pivot = pivot_root(rest);
    pivots[i] = pivot;
    Ok(())
}

// Incomplete Cholesky: `values` has the pair values at entry and the factors at exit, `pivots` the diagonal at entry and that of the factor at exit.
pub fn factor(
    starts: &[u32],
    columns: &[u32],
    values: &mut [f64],
    pivots: &mut [f64],
    marks: &mut [u32],
) -> Result<(), Refusal>
    requires kept { Kept starts.now columns.now }
    requires values_len { length values.old ≡ length columns.now }
    requires starts_len { length starts.now ≡ length pivots.old + 1 }
    requires marks_len { length marks.old ≡ length pivots.old }
    requires at_most { AtMost marks.old 0 }
    ensures pivots_value { factor_run (numbers starts.now columns.now values.old) pivots.old
        ≡ factor_out result (numbers starts.now columns.now values.new) pivots.new }
    ensures pivots_value_2 { or_thirteen (factor_run (numbers starts.now columns.now values.old) pivots.old)
        ≡ factored_out result (numbers starts.now columns.now values.new) pivots.new }
    ensures factor_free { FactorFree (start starts.now (length pivots.old)) values.old values.new marks.old marks.new }
{
    let n = pivots.len();
    for i in 0..n {
        row_at(starts, columns, values, pivots, marks, i)?;
    }
    Ok(())
}
