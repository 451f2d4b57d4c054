// The triangular solves: apply_velocity_preconditioner of pcg.rs with a factor.
ghost use Rattle.std.specs.Prelude.{◌≡◌, ◌+◌, ◌*◌, ◌<◌, ◌≤◌, length, get_or};
ghost use Rattle.std.specs.Float.{nan, binary64};
ghost use Rattle.std.specs.Float.Ieee.{mul};
ghost use Rattle.refusals.specs.declared.Refusal.TheVariants.{Step};
ghost use Rattle.sparse.specs.Count.{count as down};
ghost use Rattle.sparse.specs.Kept.{Kept, numbers};
ghost use Rattle.triangular.specs.Column.{place_at, home_at, Indexed};
ghost use Rattle.triangular.specs.Index.{Spread};
ghost use Rattle.triangular.specs.Triangular.{transposed, along_turn, forward_turn, forward_run, backward_of, backward_run, solve_run, or_sixteen};
ghost use Rattle.triangular.specs.Answers.{solve_out, solved_out};

use loops::wide;
use refusals::Refusal;
use sparse::{Stretch, earlier, number, row};

// A number of a solve is not finite: refusal 16.
#[derive(Clone, Copy, Debug, PartialEq, Eq)]
pub struct Overflow;

impl From<Overflow> for Refusal {
    ghost from_gives = { λ _ refusal. refusal ≡ Step };

    fn from(_overflow: Overflow) -> Refusal {
        Refusal::Step
    }
}

// `value` less the products of row `i` with `output`
fn along_row(
    value: f64,
    starts: &[u32],
    columns: &[u32],
    values: &[f64],
    output: &[f64],
    i: usize,
) -> f64
    requires kept { Kept starts.now columns.now }
    requires values_len { length values.now ≡ length columns.now }
    requires starts_len { length starts.now ≡ length output.now + 1 }
    requires i_in_bounds { i < length output.now }
    ensures { result ≡ down (along_turn (numbers starts.now columns.now values.now i) output.now) value i }
{
    let row = row(starts, columns, i);
    let first = row.first;
    let end = row.end;
    let mut rest = value;
    for p in first..end {
        let k = earlier(columns, i, first, end, p);
        rest = rest - number(values, p) * output[k];
    }
    rest
}

fn forward_at(
    starts: &[u32],
    columns: &[u32],
    values: &[f64],
    pivots: &[f64],
    residual: &[f64],
    output: &mut [f64],
    i: usize,
) -> Result<(), Overflow>
    requires kept { Kept starts.now columns.now }
    requires values_len { length values.now ≡ length columns.now }
    requires starts_len { length starts.now ≡ length output.old + 1 }
    requires pivots_len { length pivots.now ≡ length output.old }
    requires residual_len { length residual.now ≡ length output.old }
    requires i_in_bounds { i < length output.old }
    ensures { forward_turn (numbers starts.now columns.now values.now) pivots.now residual.now i output.old
        ≡ solve_out result output.new }
{
    let value = along_row(residual[i], starts, columns, values, output, i) / pivots[i];
    output[i] = value;
    if !binary64::is_finite(value) {
        return Err(Overflow);
    }
    Ok(())
}

pub fn forward(
    starts: &[u32],
    columns: &[u32],
    values: &[f64],
    pivots: &[f64],
    residual: &[f64],
    output: &mut [f64],
) -> Result<(), Overflow>
    requires kept { Kept starts.now columns.now }
    requires values_len { length values.now ≡ length columns.now }
    requires starts_len { length starts.now ≡ length output.old + 1 }
    requires pivots_len { length pivots.now ≡ length output.old }
    requires residual_len { length residual.now ≡ length output.old }
    ensures { forward_run (numbers starts.now columns.now values.now) pivots.now residual.now output.old
        ≡ solve_out result output.new }
{
    for i in 0..residual.len() {
        forward_at(starts, columns, values, pivots, residual, output, i)?;
    }
    Ok(())
}

// Column `j` in the order by column.
fn column_stretch(
    starts: &[u32],
    columns: &[u32],
    order: &[u32],
    rows: usize,
    count: u32,
    j: usize,
) -> Stretch
    requires indexed { Indexed starts.now columns.now order.now rows count }
    requires j_lt_rows { (j < rows) × (rows ≤ length order.now) }
    ensures { Spread starts.now columns.now order.now rows count j result.first result.end }
{
    let end = order[j];
    if j == 0 {
        return Stretch { first: 0, end };
    }
    let first = order[j - 1];
    Stretch { first, end }
}

// The place at `q` of that order.
fn place_at(
    starts: &[u32],
    columns: &[u32],
    order: &[u32],
    rows: usize,
    count: u32,
    j: usize,
    first: u32,
    end: u32,
    q: u32,
) -> u32
    requires spread { Spread starts.now columns.now order.now rows count j first end }
    requires first_le_q { (first ≤ q) × (q < end) × (rows + 2 * count ≤ length order.now) }
    ensures { (result ≡ place_at order.now rows q) × (result < count) }
{
    order[rows + 2 * wide(q)]
}

// Its row.
fn home(
    starts: &[u32],
    columns: &[u32],
    order: &[u32],
    rows: usize,
    count: u32,
    j: usize,
    first: u32,
    end: u32,
    q: u32,
) -> usize
    requires spread { Spread starts.now columns.now order.now rows count j first end }
    requires first_le_q { (first ≤ q) × (q < end) × (rows + 2 * count ≤ length order.now) }
    ensures { (result ≡ home_at order.now rows q) × (result < rows) }
{
    wide(order[rows + 2 * wide(q) + 1])
}

// The factor at place `p` times the output of row `r`.
fn term(values: &[f64], output: &[f64], p: u32, r: usize) -> f64
    requires { (p < length values.now) × (r < length output.now) }
    ensures { result ≡ mul binary64 (get_or values.now p nan) (get_or output.now r nan) }
{
    number(values, p) * output[r]
}

// `value` less the products of column `j` with `output`
fn along_column(
    value: f64,
    starts: &[u32],
    columns: &[u32],
    order: &[u32],
    rows: usize,
    count: u32,
    values: &[f64],
    output: &[f64],
    j: usize,
) -> f64
    requires indexed { Indexed starts.now columns.now order.now rows count }
    requires count_in_bounds { rows + 2 * count ≤ length order.now }
    requires count_in_bounds_2 { count ≤ length values.now }
    requires rows_value { rows ≡ length output.now }
    requires j_lt_rows { j < rows }
    ensures { result ≡ down (along_turn (transposed (numbers starts.now columns.now values.now) j) output.now) value rows }
{
    let column = column_stretch(starts, columns, order, rows, count, j);
    let first = column.first;
    let end = column.end;
    let mut rest = value;
    for q in first..end {
        let p = place_at(starts, columns, order, rows, count, j, first, end, q);
        let r = home(starts, columns, order, rows, count, j, first, end, q);
        rest = rest - term(values, output, p, r);
    }
    rest
}

fn backward_at(
    starts: &[u32],
    columns: &[u32],
    order: &[u32],
    rows: usize,
    count: u32,
    values: &[f64],
    pivots: &[f64],
    output: &mut [f64],
    i: usize,
) -> Result<(), Overflow>
    requires indexed { Indexed starts.now columns.now order.now rows count }
    requires count_in_bounds { rows + 2 * count ≤ length order.now }
    requires count_in_bounds_2 { count ≤ length values.now }
    requires rows_value { rows ≡ length output.old }
    requires rows_value_2 { rows ≡ length pivots.now }
    requires i_lt_rows { i < rows }
    ensures { backward_of (numbers starts.now columns.now values.now) pivots.now i output.old
        ≡ solve_out result output.new }
{
    let value = along_column(
        output[i], starts, columns, order, rows, count, values, output, i,
    ) / pivots[i];
    output[i] = value;
    if !binary64::is_finite(value) {
        return Err(Overflow);
    }
    Ok(())
}

pub fn backward(
    starts: &[u32],
    columns: &[u32],
    order: &[u32],
    count: u32,
    values: &[f64],
    pivots: &[f64],
    output: &mut [f64],
) -> Result<(), Overflow>
    requires indexed { Indexed starts.now columns.now order.now (length output.old) count }
    requires count_in_bounds { length output.old + 2 * count ≤ length order.now }
    requires count_in_bounds_2 { count ≤ length values.now }
    requires output_len { length output.old ≡ length pivots.now }
    ensures { backward_run (numbers starts.now columns.now values.now) pivots.now output.old
        ≡ solve_out result output.new }
{
    let rows = output.len();
    for t in 0..rows {
        let i = rows - 1 - t;
        backward_at(
            starts, columns, order, rows, count, values, pivots, output, i,
        )?;
    }
    Ok(())
}

// The factor's two triangular solves on `residual`, into `output`.
pub fn solve(
    starts: &[u32],
    columns: &[u32],
    order: &[u32],
    count: u32,
    values: &[f64],
    pivots: &[f64],
    residual: &[f64],
    output: &mut [f64],
) -> Result<(), Overflow>
    requires indexed { Indexed starts.now columns.now order.now (length output.old) count }
    requires order_len { length order.now ≡ length output.old + 2 * length columns.now }
    requires values_len { length values.now ≡ length columns.now }
    requires pivots_len { length pivots.now ≡ length output.old }
    requires residual_len { length residual.now ≡ length output.old }
    ensures output_value { solve_run (numbers starts.now columns.now values.now) pivots.now residual.now output.old
        ≡ solve_out result output.new }
    ensures output_value_2 { or_sixteen (solve_run (numbers starts.now columns.now values.now) pivots.now residual.now output.old)
        ≡ solved_out result output.new }
{
    forward(starts, columns, values, pivots, residual, output)?;
    backward(starts, columns, order, count, values, pivots, output)
}
