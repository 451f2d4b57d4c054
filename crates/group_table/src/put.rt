// A table of one group's rows, back into the table that they were picked from. `missing`, in clauses alone, is what a place past a list's end is read as.
ghost use Rattle.std.specs.Prelude.{◌≡◌, ◌+◌, ◌*◌, ◌<◌, ◌≤◌, length};
ghost use Rattle.group_table.specs.Pick.{rows_of, Put};
ghost use Rattle.group_table.specs.Steps.{RoomFor, RowScattered};

use crate::copy::copy_row;

fn put_row<T: Copy>(
    groups: &[u32],
    g: u32,
    width: usize,
    from: &[T],
    to: &mut [T],
    i: usize,
    k: usize,
) -> usize
    ghost missing: { T }
    requires i_in_bounds { (i < length groups.now) × (width * i + width ≤ length to.old) × (k ≤ i) }
    requires room_for { RoomFor groups.now g i width k (length from.now) }
    ensures { RowScattered missing width groups.now g i k from.now to.old to.new result }
{
    if groups[i] != g {
        return k;
    }
    copy_row(from, width * k, to, width * i, width);
    k + 1
}

// The rows of `from`, `width` elements each, become the rows of group `g` in `to`. Its other rows stay.
pub fn put_rows<T: Copy>(
    groups: &[u32],
    g: u32,
    rows: usize,
    width: usize,
    from: &[T],
    to: &mut [T],
)
    ghost missing: { T }
    requires { (rows ≤ length groups.now) × (length from.now ≡ width * length (rows_of groups.now g rows)) × (width * rows ≤ length to.old) }
    ensures { Put missing width groups.now g rows from.now to.old to.new }
{
    let mut k = 0;
    for i in 0..rows {
        k = put_row(groups, g, width, from, to, i, k);
    }
}
