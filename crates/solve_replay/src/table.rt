// The table of a job, out of its words: of a row's 35 the first 27 are numbers, the others u32.
ghost use Rattle.std.specs.Prelude.{◌≡◌, ◌+◌, ◌*◌, ◌<◌, ◌≤◌, length, replicate};
ghost use Rattle.solve_replay.specs.Job.{doubles_of, row_numbers, row_words};
ghost use Rattle.solve_replay.specs.Seen.{beside_size, beside_group, TableRead};

use crate::header::Header;
use kapitsa_joint::Kind;
use loops::wide;
use packed_list::unpack;

// A double for each word.
pub fn read_doubles(words: &[u64], out: &mut [f64])
    requires { length out.old ≤ length words.now }
    ensures { out.new ≡ doubles_of words.now (length out.old) }
{
    let mut i = 0;
    while i < out.len() {
        let x = binary64::from_bits(words[i]);
        out[i] = x;
        i += 1;
    }
}

pub fn read_numbers(words: &[u64], rows: usize, out: &mut [f64])
    requires { (length words.now ≡ 35 * rows) × (length out.old ≡ 27 * rows) × (rows ≤ 513) }
    ensures { out.new ≡ row_numbers words.now (length out.old) }
{
    let mut i = 0;
    while i < out.len() {
        let x = binary64::from_bits(words[35 * (i / 27) + i % 27]);
        out[i] = x;
        i += 1;
    }
}

pub fn read_words(words: &[u64], rows: usize, out: &mut [u32])
    requires { (length words.now ≡ 35 * rows) × (length out.old ≡ 8 * rows) × (rows ≤ 513) }
    ensures { out.new ≡ row_words words.now (length out.old) }
{
    let mut i = 0;
    while i < out.len() {
        let x = (words[35 * (i / 8) + 27 + i % 8] % 4294967296) as u32;
        out[i] = x;
        i += 1;
    }
}

// What is lent beside the table: a record of three words for each body or, of velocities, of one for each row. The place after it.
fn unpack_beside(kind: Kind, list: &[u8], at: usize, n: usize, b: usize, words: &mut [u64]) -> usize
    requires { (at < 3000000000) × (n ≤ 513) × (b ≤ 257) × (words.old ≡ replicate (beside_size kind n b) 0) }
    ensures words_after { (result, words.new) ≡ beside_group kind list.now at n b }
    ensures upper_bound { result ≤ at + 180000 }
{
    match kind {
        Kind::Position => unpack(list, at, 3, b, words),
        Kind::Velocity => unpack(list, at, 1, n, words),
    }
}

// The table, from `at` on. The place after it.
pub fn read_table(
    kind: Kind,
    list: &[u8],
    at: usize,
    header: Header,
    rows: &mut [u64],
    mass_words: &mut [u64],
    beside_words: &mut [u64],
    numbers: &mut [f64],
    words: &mut [u32],
    masses: &mut [f64],
    beside: &mut [f64],
) -> usize
    requires at_bound { (at < 2000000000) × (header.rows ≤ 513) × (header.bodies ≤ 257) }
    requires numbers_len { (length numbers.old ≡ 27 * header.rows) × (length words.old ≡ 8 * header.rows) × (length masses.old ≡ 10 * header.bodies) × (length beside.old ≡ beside_size kind header.rows header.bodies) }
    requires rows_value { (rows.old ≡ replicate (35 * header.rows) 0) × (mass_words.old ≡ replicate (10 * header.bodies) 0) × (beside_words.old ≡ replicate (beside_size kind header.rows header.bodies) 0) }
    ensures { TableRead kind list.now at header.rows header.bodies result rows.new numbers.new words.new masses.new beside.new }
{
    let n = wide(header.rows);
    let b = wide(header.bodies);
    let masses_at = unpack(list, at, 35, n, rows);
    let beside_at = unpack(list, masses_at, 10, b, mass_words);
    let end = unpack_beside(kind, list, beside_at, n, b, beside_words);
    read_numbers(rows, n, numbers);
    read_words(rows, n, words);
    read_doubles(mass_words, masses);
    read_doubles(beside_words, beside);
    end
}
