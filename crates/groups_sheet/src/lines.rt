// The first line, and the line of a group.
ghost use Rattle.std.specs.Prelude.{◌≡◌, ◌<◌, ◌≤◌, length};
ghost use Rattle.group_table.specs.Pick.{rows_of};
ghost use Rattle.listing.specs.Written.{Room, Wrote};
ghost use Rattle.groups_sheet.specs.Text.{groups_line, row_word, row_words, group_line};

use listing::digits::put_number;
use listing::text::{put_byte, put_text};
use loops::wide;

pub fn groups_line(refusal: u32, count: u32, out: &mut [u8]) -> usize
    requires { Room out.old 0 (groups_line refusal count) }
    ensures { Wrote out.old 0 (groups_line refusal count) out.new result }
{
    let a = put_text(out, 0, b"groups");
    let b = put_number(out, a, refusal);
    let c = put_number(out, b, count);
    put_byte(out, c, b'\n')
}

// The number of row `i`, where it is of group `g`.
fn put_row(out: &mut [u8], at: usize, groups: &[u32], g: u32, i: u32) -> usize
    requires { (i < length groups.now) × Room out.old at (row_word groups.now g i) }
    ensures { Wrote out.old at (row_word groups.now g i) out.new result }
{
    if groups[wide(i)] != g {
        return at;
    }
    put_number(out, at, i)
}

fn put_rows(out: &mut [u8], at: usize, groups: &[u32], g: u32, rows: u32) -> usize
    requires { (rows ≤ length groups.now) × Room out.old at (row_words (rows_of groups.now g rows)) }
    ensures { Wrote out.old at (row_words (rows_of groups.now g rows)) out.new result }
{
    let mut next = at;
    for i in 0..rows {
        next = put_row(out, next, groups, g, i);
    }
    next
}

// Of group `g`, which has `count` of the first `rows` rows.
pub fn group_line(groups: &[u32], g: u32, rows: u32, count: u32, out: &mut [u8]) -> usize
    requires { (rows ≤ length groups.now) × (count ≡ length (rows_of groups.now g rows)) × Room out.old 0 (group_line g (rows_of groups.now g rows)) }
    ensures { Wrote out.old 0 (group_line g (rows_of groups.now g rows)) out.new result }
{
    let a = put_text(out, 0, b"group");
    let b = put_number(out, a, g);
    let c = put_number(out, b, count);
    let d = put_rows(out, c, groups, g, rows);
    put_byte(out, d, b'\n')
}
