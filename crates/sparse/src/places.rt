// Places of the flat slices: a place is a u32, and row i has the places starts[i] .. starts[i + 1] - 1.
ghost use Rattle.std.specs.Prelude.{◌≡◌, ◌+◌, ◌<◌, ◌≤◌, length, get_or, set};
ghost use Rattle.std.specs.Float.{nan};
ghost use Rattle.sparse.specs.Kept.{Rising, Kept, Row};

use loops::wide;

// The places of a row.
#[derive(Clone, Copy)]
pub struct Stretch {
    pub first: u32,
    pub end: u32,
}

pub fn row(starts: &[u32], columns: &[u32], i: usize) -> Stretch
    requires kept { Kept starts.now columns.now }
    requires i_in_bounds { i + 1 < length starts.now }
    ensures { Row starts.now columns.now i result.first result.end }
{
    let first = starts[i];
    let end = starts[i + 1];
    Stretch { first, end }
}

pub fn column(columns: &[u32], p: u32) -> usize
    requires { p < length columns.now }
    ensures { result ≡ get_or columns.now p 0 }
{
    wide(columns[wide(p)])
}

pub fn number(values: &[f64], p: u32) -> f64
    requires { p < length values.now }
    ensures { result ≡ get_or values.now p nan }
{
    values[wide(p)]
}

pub fn write(values: &mut [f64], p: u32, x: f64)
    requires { p < length values.old }
    ensures { values.new ≡ set values.old p x }
{
    let at = wide(p);
    values[at] = x;
}

pub fn put(list: &mut [u32], p: u32, x: u32)
    requires { p < length list.old }
    ensures { list.new ≡ set list.old p x }
{
    let at = wide(p);
    list[at] = x;
}

// the column at place `p` of row `i`
pub fn earlier(columns: &[u32], i: usize, first: u32, end: u32, p: u32) -> usize
    requires rising { Rising columns.now first end i }
    requires end_in_bounds { end ≤ length columns.now }
    requires first_le_p { first ≤ p }
    requires p_lt_end { p < end }
    ensures value { result ≡ get_or columns.now p 0 }
    ensures upper_bound { result < i }
{
    column(columns, p)
}
