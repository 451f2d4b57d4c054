// The row section and the mass section: the numbers of one row or mass, by its place in the section, and into lent memory.
ghost use Rattle.std.specs.Prelude.{◌≡◌, ◌+◌, ◌*◌, ◌<◌, ◌≤◌, length};
ghost use Rattle.job_file.specs.Layout.{number_place, word_place, mass_place, rows_end, masses_end};
ghost use Rattle.job_file.specs.File.{row_number, row_word, row_words, mass_number, centre_number, row_numbers_over, row_words_over, section_masses, section_centres};

use crate::layout::{CENTRE_BYTES, MASS_BYTES, ROW_BYTES, ROW_DOUBLES};
use kapitsa_joint::RowWords;
use little_endian::{double, half};

// Number j of 27 of row i, where the row section begins at `offset`.
#[tactic(auto, unfolding(crate::specs::File::row_number, crate::specs::File::row_bits, little_endian::specs::Words::double_at))]
pub fn row_number(file: &[u8], offset: usize, i: usize, j: usize) -> f64
    requires { number_place offset i j + 8 ≤ length file.now }
    ensures { result ≡ row_number file.now offset i j }
{
    double(file, offset + ROW_BYTES * i + 8 * j)
}

// Word j of 8 of row i.
#[tactic(auto, unfolding(crate::specs::File::row_word))]
pub fn row_word(file: &[u8], offset: usize, i: usize, j: usize) -> u32
    requires { word_place offset i j + 4 ≤ length file.now }
    ensures { result ≡ row_word file.now offset i j }
{
    half(file, offset + ROW_BYTES * i + ROW_DOUBLES + 4 * j)
}

// The words of row i.
#[tactic(auto, unfolding(crate::specs::File::row_words))]
pub fn row_words(file: &[u8], offset: usize, i: usize) -> RowWords
    requires { rows_end offset (i + 1) ≤ length file.now }
    ensures { result ≡ row_words file.now offset i }
{
    RowWords {
        key: row_word(file, offset, i, 0),
        dimension: row_word(file, offset, i, 1),
        body_a: row_word(file, offset, i, 2),
        body_b: row_word(file, offset, i, 3),
        force_driven: row_word(file, offset, i, 4),
        position_enabled: row_word(file, offset, i, 5),
        owner: row_word(file, offset, i, 6),
        spare: row_word(file, offset, i, 7),
    }
}

// Number j of 10 of body b, where the mass section begins at `offset` and the trailer has this spare.
#[tactic(auto, unfolding(crate::specs::File::mass_number, crate::specs::File::mass_bits, little_endian::specs::Words::double_at))]
pub fn mass_number(file: &[u8], offset: usize, spare: u32, b: usize, j: usize) -> f64
    requires { mass_place offset spare b j + 8 ≤ length file.now }
    ensures { result ≡ mass_number file.now offset spare b j }
{
    let mass_bytes = MASS_BYTES + CENTRE_BYTES * (spare as usize);
    double(file, offset + mass_bytes * b + 8 * j)
}

// Number j of 3 of the centre of body b: +0.0 where the file has no centres.
pub fn centre_number(file: &[u8], offset: usize, spare: u32, b: usize, j: usize) -> f64
    requires { (j < 3) × (masses_end offset spare (b + 1) ≤ length file.now) }
    ensures { result ≡ centre_number file.now offset spare b j }
{
    if spare == 1 {
        return mass_number(file, offset, 1, b, 10 + j);
    }
    0.0
}

// The 27 numbers of row i, to their places in a list of all rows,
fn put_numbers(file: &[u8], offset: usize, i: usize, numbers: &mut [f64])
    requires { (rows_end offset (i + 1) ≤ length file.now) × (27 * (i + 1) ≤ length numbers.old) }
    ensures { numbers.new ≡ row_numbers_over file.now offset i numbers.old }
{
    for j in 0..27 {
        numbers[27 * i + j] = row_number(file, offset, i, j);
    }
}

// the 8 words,
fn put_words(file: &[u8], offset: usize, i: usize, words: &mut [u32])
    requires { (rows_end offset (i + 1) ≤ length file.now) × (8 * (i + 1) ≤ length words.old) }
    ensures { words.new ≡ row_words_over file.now offset i words.old }
{
    for j in 0..8 {
        words[8 * i + j] = row_word(file, offset, i, j);
    }
}

// and both.
pub fn put_row(file: &[u8], offset: usize, i: usize, numbers: &mut [f64], words: &mut [u32])
    requires { (rows_end offset (i + 1) ≤ length file.now) × (27 * (i + 1) ≤ length numbers.old) × (8 * (i + 1) ≤ length words.old) }
    ensures { (numbers.new ≡ row_numbers_over file.now offset i numbers.old) × (words.new ≡ row_words_over file.now offset i words.old) }
{
    put_numbers(file, offset, i, numbers);
    put_words(file, offset, i, words)
}

// The 10 numbers of each body,
pub fn read_masses(file: &[u8], offset: usize, spare: u32, bodies: usize, masses: &mut [f64])
    requires { (masses_end offset spare bodies ≤ length file.now) × (length masses.old ≡ 10 * bodies) }
    ensures { masses.new ≡ section_masses file.now offset spare bodies }
{
    for k in 0..masses.len() {
        masses[k] = mass_number(file, offset, spare, k / 10, k % 10);
    }
}

// and the 3 of its centre.
pub fn read_centres(file: &[u8], offset: usize, spare: u32, bodies: usize, centres: &mut [f64])
    requires { (masses_end offset spare bodies ≤ length file.now) × (length centres.old ≡ 3 * bodies) }
    ensures { centres.new ≡ section_centres file.now offset spare bodies }
{
    for k in 0..centres.len() {
        centres[k] = centre_number(file, offset, spare, k / 3, k % 3);
    }
}
