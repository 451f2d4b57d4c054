// Mode 1: build_incomplete_cholesky_preconditioner_into of pcg.rs.
ghost use Rattle.std.specs.Prelude.{◌≡◌, ◌+◌, ◌*◌, ◌≤◌, length};
ghost use Rattle.mass_operator.specs.System.{compact_system};
ghost use Rattle.compact_table.specs.Compact.{Linked};
ghost use Rattle.refusals.specs.Told.{told};
ghost use Rattle.sparse.specs.Cholesky.{factor_run, or_thirteen};
ghost use Rattle.sparse.specs.Kept.{Kept, numbers};
ghost use Rattle.sparse.specs.Answers.{factor_out, factored_out};
ghost use Rattle.pairs.specs.Pairs.{pattern_of, pair_count, pair_room};
ghost use Rattle.pairs.specs.Pattern.{starts_in, columns_in};
ghost use Rattle.incomplete_cholesky.specs.Build.{Finished, FactorHeld, FactorPast};

use loops::wide;
use pairs::pairs;
use refusals::Refusal;
use sparse::factor;
use triangular::index;

// The factor, whatever stands in `marks`.
fn factor_afresh(
    starts: &[u32],
    columns: &[u32],
    values: &mut [f64],
    diagonal: &mut [f64],
    marks: &mut [u32],
) -> Result<(), Refusal>
    requires kept { Kept starts.now columns.now }
    requires values_len { (length values.old ≡ length columns.now) × (length starts.now ≡ length diagonal.old + 1) × (length marks.old ≡ length diagonal.old) }
    ensures value { factor_run (numbers starts.now columns.now values.old) diagonal.old
        ≡ factor_out result (numbers starts.now columns.now values.new) diagonal.new }
    ensures number { or_thirteen (factor_run (numbers starts.now columns.now values.old) diagonal.old)
        ≡ factored_out result (numbers starts.now columns.now values.new) diagonal.new }
{
    loops::clear_words(marks);
    factor(starts, columns, values, diagonal, marks)
}

// The factor of the pairs that `pattern` and `values` keep, and its index by column. Until the index is made, the words of its rows are the factor's marks.
fn finish(
    pattern: &[u32],
    values: &mut [f64],
    diagonal: &mut [f64],
    order: &mut [u32],
    rows: u32,
) -> Result<u32, Refusal>
    requires kept { Kept (starts_in rows pattern.now) (columns_in rows pattern.now) }
    requires diagonal_len { (length diagonal.old ≡ rows) × (length pattern.now ≡ rows + 1 + length values.old) × (length order.old ≡ rows + 2 * length values.old) }
    ensures { Finished rows diagonal.old (told result) (starts_in rows pattern.now) (columns_in rows pattern.now)
        order.old order.new values.old values.new diagonal.new }
{
    let n = wide(rows);
    let ends = n + 1;
    let starts = &pattern[..ends];
    let columns = &pattern[ends..];
    factor_afresh(starts, columns, values, diagonal, &mut order[..n])?;
    Ok(index(starts, columns, order, rows))
}

// The factor of the table's pairs: its numbers in `values`, at the places that `pattern` says, its pivots in the place of the (replaced) diagonal, and its index by column in `order`.
// The answer is the number of places, or refusal 10, 12 or 13.
pub fn build_incomplete_cholesky_preconditioner(
    jacobians: &[f64],
    links: &[u32],
    masses: &[f64],
    rows: u32,
    bodies: usize,
    diagonal: &mut [f64],
    pattern: &mut [u32],
    order: &mut [u32],
    values: &mut [f64],
    room: u32,
) -> Result<u32, Refusal>
    requires rows_in_bounds { (12 * rows ≤ length jacobians.now) × (2 * rows ≤ length links.now) × (10 * bodies ≤ length masses.now) }
    requires linked { Linked links.now rows bodies }
    requires diagonal_len { (length diagonal.old ≡ rows) × (length pattern.old ≡ rows + 1 + pair_room rows) × (length order.old ≡ rows + 2 * pair_room rows)
        × (length values.old ≡ pair_room rows) × (room ≡ pair_room rows) }
    ensures factor_held { FactorHeld (compact_system rows bodies jacobians.now links.now masses.now) diagonal.old (told result)
        (starts_in rows pattern.new) (columns_in rows pattern.new) order.old order.new values.old values.new diagonal.new }
    ensures factor_past { FactorPast rows (pair_count (pattern_of (compact_system rows bodies jacobians.now links.now masses.now)) rows)
        pattern.old pattern.new order.old order.new values.old values.new }
{
    pairs(
        jacobians, links, masses, rows, bodies, pattern, values, room,
    )?;
    finish(pattern, values, diagonal, order, rows)
}
