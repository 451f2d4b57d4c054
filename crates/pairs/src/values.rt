// The values of the pairs whose starts and columns are known.
ghost use Rattle.std.specs.Prelude.{◌≡◌, ◌+◌, ◌*◌, ◌<◌, ◌≤◌, length};
ghost use Rattle.loops.specs.Cleared.{Free};
ghost use Rattle.compact_table.specs.Compact.{Linked};
ghost use Rattle.sparse.specs.Kept.{start, Kept};
ghost use Rattle.pairs.specs.Gather.{value_in, Valued, finite_below};

use crate::arms::arms_at;
use crate::cross::value_with;
use sparse::{earlier, row, write};

// The values of row `i`. `fine` says whether all values before them are finite, and the answer whether these are too.
fn value_row(
    jacobians: &[f64],
    links: &[u32],
    masses: &[f64],
    rows: usize,
    bodies: usize,
    starts: &[u32],
    columns: &[u32],
    values: &mut [f64],
    i: usize,
    fine: bool,
) -> bool
    requires rows_in_bounds { (12 * rows ≤ length jacobians.now) × (2 * rows ≤ length links.now) × (10 * bodies ≤ length masses.now) }
    requires linked { Linked links.now rows bodies }
    requires i_lt_rows { (i < rows) × (length starts.now ≡ rows + 1) × (length values.old ≡ length columns.now) }
    requires kept { Kept starts.now columns.now }
    requires valued { Valued (value_in jacobians.now links.now masses.now) starts.now columns.now values.old (start starts.now i) }
    requires fine_value { fine ≡ finite_below values.old (start starts.now i) }
    ensures valued_2 { Valued (value_in jacobians.now links.now masses.now) starts.now columns.now values.new (start starts.now (i + 1)) }
    ensures value { result ≡ finite_below values.new (start starts.now (i + 1)) }
{
    let row = row(starts, columns, i);
    let first = row.first;
    let end = row.end;
    if first == end {
        return fine;
    }
    let higher = arms_at(jacobians, links, masses, rows, bodies, i);
    let mut all = fine;
    for p in first..end {
        let j = earlier(columns, i, first, end, p);
        let value = value_with(jacobians, links, higher, j);
        write(values, p, value);
        all = all & binary64::is_finite(value);
    }
    all
}

// The values of all rows. Are all finite? What `values` has past the last place is left free.
pub fn fill_values(
    jacobians: &[f64],
    links: &[u32],
    masses: &[f64],
    rows: usize,
    bodies: usize,
    starts: &[u32],
    columns: &[u32],
    values: &mut [f64],
) -> bool
    requires rows_in_bounds { (12 * rows ≤ length jacobians.now) × (2 * rows ≤ length links.now) × (10 * bodies ≤ length masses.now) }
    requires linked { Linked links.now rows bodies }
    requires starts_len { (length starts.now ≡ rows + 1) × (length values.old ≡ length columns.now) }
    requires kept { Kept starts.now columns.now }
    ensures valued { Valued (value_in jacobians.now links.now masses.now) starts.now columns.now values.new (start starts.now rows) }
    ensures value { result ≡ finite_below values.new (start starts.now rows) }
    ensures free { Free values.old values.new }
{
    let mut fine = true;
    for i in 0..rows {
        fine = value_row(
            jacobians, links, masses, rows, bodies, starts, columns, values, i, fine,
        );
    }
    fine
}
