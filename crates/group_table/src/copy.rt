// Rows of a slice, and rows that bear a mark. `missing`, in clauses alone, is what a place past a list's end is read as.
ghost use Rattle.std.specs.Prelude.{◌+◌, ◌*◌, ◌<◌, ◌≤◌, length};
ghost use Rattle.std.specs.Float.{nan};
ghost use Rattle.group_table.specs.Pick.{Marked};
ghost use Rattle.group_table.specs.Steps.{BlockCopied, RowMarked};

// By a loop: the library's copy would be one more name that the archive for C needs from outside.
pub fn copy_row<T: Copy>(from: &[T], at: usize, to: &mut [T], put: usize, width: usize)
    ghost missing: { T }
    requires { (at + width ≤ length from.now) × (put + width ≤ length to.old) }
    ensures { BlockCopied missing width at put from.now to.old to.new }
{
    for c in 0..width {
        to[put + c] = from[at + c];
    }
}

fn copy_marked_row(marks: &[u32], mark: u32, width: usize, from: &[f64], to: &mut [f64], b: usize)
    requires { (b < length marks.now) × (width * b + width ≤ length from.now) × (width * b + width ≤ length to.old) }
    ensures { RowMarked nan width marks.now mark b from.now to.old to.new }
{
    if marks[b] != mark {
        return;
    }
    copy_row(from, width * b, to, width * b, width);
}

// Of the first `count` rows of `width` numbers, those that bear `mark` become those of `from`.
pub fn copy_marked(
    marks: &[u32],
    mark: u32,
    count: usize,
    width: usize,
    from: &[f64],
    to: &mut [f64],
)
    requires { (count ≤ length marks.now) × (width * count ≤ length from.now) × (width * count ≤ length to.old) }
    ensures { Marked nan width marks.now mark count from.now to.old to.new }
{
    for b in 0..count {
        copy_marked_row(marks, mark, width, from, to, b);
    }
}
