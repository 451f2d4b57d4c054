// The rows of one group, picked out of a table: in their order, one behind the other. `missing`, in clauses alone, is what a place past a list's end is read as.
ghost use Rattle.std.specs.Prelude.{◌≡◌, ◌+◌, ◌*◌, ◌<◌, ◌≤◌, length};
ghost use Rattle.group_table.specs.Pick.{rows_of, pick_rows};
ghost use Rattle.group_table.specs.Steps.{RowCounted, RoomFor, RowPicked};

use crate::copy::copy_row;

fn count_row(groups: &[u32], g: u32, i: usize, k: usize) -> usize
    requires { (i < length groups.now) × (k ≤ i) }
    ensures { RowCounted groups.now g i k result }
{
    if groups[i] != g {
        return k;
    }
    k + 1
}

// How many of the first `rows` rows are of group `g`.
pub fn count_rows(groups: &[u32], g: u32, rows: usize) -> usize
    requires { rows ≤ length groups.now }
    ensures { result ≡ length (rows_of groups.now g rows) }
{
    let mut k = 0;
    for i in 0..rows {
        k = count_row(groups, g, i, k);
    }
    k
}

fn pick_row<T: Copy>(
    groups: &[u32],
    g: u32,
    width: usize,
    from: &[T],
    to: &mut [T],
    i: usize,
    k: usize,
) -> usize
    ghost missing: { T }
    requires i_in_bounds { (i < length groups.now) × (width * i + width ≤ length from.now) × (k ≤ i) }
    requires room_for { RoomFor groups.now g i width k (length to.old) }
    ensures { RowPicked missing width groups.now g i k from.now to.old to.new result }
{
    if groups[i] != g {
        return k;
    }
    copy_row(from, width * i, to, width * k, width);
    k + 1
}

// The rows of group `g` among the first `rows`, `width` elements each. `to` has room for just them.
pub fn pick_rows<T: Copy>(
    groups: &[u32],
    g: u32,
    rows: usize,
    width: usize,
    from: &[T],
    to: &mut [T],
)
    ghost missing: { T }
    requires { (rows ≤ length groups.now) × (width * rows ≤ length from.now) × (length to.old ≡ width * length (rows_of groups.now g rows)) }
    ensures { to.new ≡ pick_rows missing width (rows_of groups.now g rows) from.now }
{
    let mut k = 0;
    for i in 0..rows {
        k = pick_row(groups, g, width, from, to, i, k);
    }
}
