// A group number for each row: labels of bodies, joined row by row; then a key for each row; then numbers by lowest row.
ghost use Rattle.std.specs.Prelude.{◌≡◌, ◌+◌, ◌*◌, ◌<◌, ◌≤◌, length, get_or};
ghost use Rattle.loops.specs.Cleared.{cleared_words};
ghost use Rattle.groups.specs.Together.{links_in, joins_in, body_a, body_b, Linked, Grouped};
ghost use Rattle.groups.specs.Steps.{renamed, Front, Labels, RowJoined, key_of, RowNumbered, Numbered, KeysBelow, Zeros, Zeroed, Unchanged};

use crate::mass::is_massless;
use loops::{clear_words, wide};

fn rename(x: u32, from: u32, to: u32) -> u32
    ensures { result ≡ renamed from to x }
{
    if x == from {
        return to;
    }
    x
}

// Each of the first `bodies` labels that is `from` becomes `to`.
fn relabel(labels: &mut [u32], bodies: usize, from: u32, to: u32)
    requires { bodies ≤ length labels.old }
    ensures { Front (λ b. renamed from to (get_or labels.old b 0)) bodies labels.old labels.new }
{
    for b in 0..bodies {
        labels[b] = rename(labels[b], from, to);
    }
}

fn join_row(words: &[u32], masses: &[f64], bodies: usize, labels: &mut [u32], i: usize)
    requires i_in_bounds { (8 * i + 8 ≤ length words.now) × (10 * bodies ≤ length masses.now) × (bodies ≤ length labels.old) }
    requires i_bound { (body_a (links_in words.now) i < bodies) × (body_b (links_in words.now) i < bodies) }
    ensures { RowJoined (links_in words.now) (joins_in masses.now) bodies i labels.old labels.new }
{
    let at = 8 * i;
    let a = wide(words[at + 2]);
    let b = wide(words[at + 3]);
    if is_massless(masses, a) {
        return;
    }
    if is_massless(masses, b) {
        return;
    }
    let from = labels[a];
    let to = labels[b];
    if from == to {
        return;
    }
    relabel(labels, bodies, from, to);
}

// After all rows have joined their bodies, joining bodies of rows that belong together, and no others, have one label.
fn join_rows(words: &[u32], masses: &[f64], rows: usize, bodies: usize, labels: &mut [u32])
    requires rows_in_bounds { (8 * rows ≤ length words.now) × (10 * bodies ≤ length masses.now) × (bodies ≤ length labels.old) × (bodies ≤ 4294967296) }
    requires linked { Linked (links_in words.now) rows bodies }
    ensures labels_len_unchanged { length labels.new ≡ length labels.old }
    ensures labels { Labels (links_in words.now) (joins_in masses.now) rows bodies rows labels.new }
{
    own_labels(labels, bodies);
    for i in 0..rows {
        join_row(words, masses, bodies, labels, i);
    }
}

// A label of its own for each body.
fn own_labels(labels: &mut [u32], bodies: usize)
    requires { (bodies ≤ length labels.old) × (bodies ≤ 4294967296) }
    ensures { Front (λ b. b) bodies labels.old labels.new }
{
    for b in 0..bodies {
        labels[b] = b as u32;
    }
}

fn key(words: &[u32], masses: &[f64], bodies: usize, labels: &[u32], i: usize) -> u32
    requires i_in_bounds { (8 * i + 8 ≤ length words.now) × (10 * bodies ≤ length masses.now) × (bodies ≤ length labels.now) × (bodies + i < 4294967296) }
    requires i_bound { (body_a (links_in words.now) i < bodies) × (body_b (links_in words.now) i < bodies) }
    ensures { result ≡ key_of (links_in words.now) (joins_in masses.now) bodies labels.now i }
{
    let at = 8 * i;
    let a = wide(words[at + 2]);
    if !is_massless(masses, a) {
        return labels[a];
    }
    let b = wide(words[at + 3]);
    if !is_massless(masses, b) {
        return labels[b];
    }
    (bodies + i) as u32
}

fn key_rows(
    words: &[u32],
    masses: &[f64],
    rows: usize,
    bodies: usize,
    labels: &[u32],
    keys: &mut [u32],
)
    requires rows_in_bounds { (8 * rows ≤ length words.now) × (10 * bodies ≤ length masses.now) × (bodies ≤ length labels.now) × (bodies + rows ≤ 4294967296) × (rows ≤ length keys.old) }
    requires linked { Linked (links_in words.now) rows bodies }
    ensures { Front (key_of (links_in words.now) (joins_in masses.now) bodies labels.now) rows keys.old keys.new }
{
    for i in 0..rows {
        keys[i] = key(words, masses, bodies, labels, i);
    }
}

// The key of row `i` becomes its number: a new one, `count`, where the table has none for the key. The answer is the new count.
fn number_row(groups: &mut [u32], table: &mut [u32], i: usize, count: u32) -> u32
    requires { (i < length groups.old) × (get_or groups.old i 0 < length table.old) × (count + 1 < 4294967296) }
    ensures { RowNumbered i groups.old table.old count groups.new table.new result }
{
    let at = wide(groups[i]);
    let seen = table[at];
    if seen == 0 {
        groups[i] = count;
        table[at] = count + 1;
        return count + 1;
    }
    groups[i] = seen - 1;
    count
}

// Keys become numbers, by lowest row. The answer is how many there are.
fn number_rows(groups: &mut [u32], rows: usize, table: &mut [u32]) -> u32
    requires rows_in_bounds { (rows ≤ length groups.old) × (rows < 4294967296) }
    requires keys_below { KeysBelow groups.old rows (length table.old) }
    requires zeros { Zeros table.old }
    ensures numbered { Numbered groups.old groups.new rows result }
    ensures table_len_unchanged { length table.new ≡ length table.old }
{
    let mut count = 0;
    for i in 0..rows {
        count = number_row(groups, table, i, count);
    }
    count
}

fn zero(work: &mut [u32])
    ensures { Zeroed work.old work.new }
{
    clear_words(work);
}

// A group number for each of the first `rows` rows. The answer is how many groups there are. `work` has room for a word for each body and each row, and is all 0 after the call.
pub fn group_rows(
    words: &[u32],
    masses: &[f64],
    rows: usize,
    bodies: usize,
    work: &mut [u32],
    groups: &mut [u32],
) -> u32
    requires rows_in_bounds { (8 * rows ≤ length words.now) × (10 * bodies ≤ length masses.now) × (rows ≤ length groups.old) }
    requires rows_in_bounds_2 { (bodies + rows ≤ length work.old) × (bodies + rows < 4294967296) }
    requires linked { Linked (links_in words.now) rows bodies }
    ensures grouped { Grouped (links_in words.now) (joins_in masses.now) rows groups.new result }
    ensures upper_bound { result ≤ rows }
    ensures unchanged { Unchanged rows groups.old groups.new }
    ensures work_after { work.new ≡ cleared_words work.old }
{
    join_rows(words, masses, rows, bodies, work);
    key_rows(words, masses, rows, bodies, work, groups);
    zero(work);
    let count = number_rows(groups, rows, work);
    zero(work);
    count
}
