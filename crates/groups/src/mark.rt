// The group of each body, as a word: the group's number and one, or 0 where the body has no mass or is in no row.
ghost use Rattle.std.specs.Prelude.{◌≡◌, ◌+◌, ◌*◌, ◌<◌, ◌≤◌, length, get_or};
ghost use Rattle.groups.specs.Together.{links_in, joins_in, body_a, body_b, Linked, Grouped};
ghost use Rattle.groups.specs.Steps.{Marks, marked_by, RowMarked, Zeros};

use crate::mass::is_massless;
use loops::wide;

fn mark_body(masses: &[f64], marks: &mut [u32], body: usize, mark: u32)
    requires { (10 * body + 10 ≤ length masses.now) × (body < length marks.old) }
    ensures { marks.new ≡ marked_by (joins_in masses.now) body mark marks.old }
{
    if is_massless(masses, body) {
        return;
    }
    marks[body] = mark;
}

// Both bodies of row `i`.
fn mark_row(
    words: &[u32],
    masses: &[f64],
    groups: &[u32],
    bodies: usize,
    marks: &mut [u32],
    i: usize,
)
    requires i_in_bounds { (8 * i + 8 ≤ length words.now) × (10 * bodies ≤ length masses.now) × (i < length groups.now) × (bodies ≤ length marks.old) }
    requires i_bound { (body_a (links_in words.now) i < bodies) × (body_b (links_in words.now) i < bodies) × (get_or groups.now i 0 + 1 < 4294967296) }
    ensures { RowMarked (links_in words.now) (joins_in masses.now) i groups.now marks.old marks.new }
{
    let at = 8 * i;
    let mark = groups[i] + 1;
    mark_body(masses, marks, wide(words[at + 2]), mark);
    mark_body(masses, marks, wide(words[at + 3]), mark);
}

// Where each row has its group's number: the group of each body.
pub fn mark_bodies(
    words: &[u32],
    masses: &[f64],
    rows: usize,
    bodies: usize,
    count: u32,
    groups: &[u32],
    marks: &mut [u32],
)
    requires rows_in_bounds { (8 * rows ≤ length words.now) × (10 * bodies ≤ length masses.now) × (rows ≤ length groups.now) × (bodies ≤ length marks.old) × (count + 1 < 4294967296) }
    requires linked { Linked (links_in words.now) rows bodies }
    requires grouped { Grouped (links_in words.now) (joins_in masses.now) rows groups.now count }
    requires zeros { Zeros marks.old }
    ensures marks_len_unchanged { length marks.new ≡ length marks.old }
    ensures marks { Marks (links_in words.now) (joins_in masses.now) rows groups.now marks.new }
{
    for i in 0..rows {
        mark_row(words, masses, groups, bodies, marks, i);
    }
}
