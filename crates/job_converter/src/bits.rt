// The numbers of a job file by their 64 bits, so that NaN payloads pass: job_file's sections.rt has them as doubles.
ghost use Rattle.std.specs.Prelude.{◌≡◌, ◌+◌, ◌*◌, ◌<◌, ◌≤◌, length};
ghost use Rattle.job_file.specs.Layout.{number_place, mass_place, rows_end, masses_end};
ghost use Rattle.job_file.specs.File.{row_bits, mass_bits, centre_bits, section_words};
ghost use Rattle.job_writer.specs.JobBits.{section_number_bits, section_mass_bits, section_centre_bits};

use job_file::layout::{CENTRE_BYTES, MASS_BYTES, ROW_BYTES};
use job_file::row_word;
use little_endian::word;

// Number j of 27 of row i, where the row section begins at `offset`.
#[tactic(auto, unfolding(job_file::specs::File::row_bits))]
pub fn row_bits(file: &[u8], offset: usize, i: usize, j: usize) -> u64
    requires { number_place offset i j + 8 ≤ length file.now }
    ensures { result ≡ row_bits file.now offset i j }
{
    word(file, offset + ROW_BYTES * i + 8 * j)
}

// Number j of 10 of body b, where the mass section begins at `offset` and the trailer has this spare.
#[tactic(auto, unfolding(job_file::specs::File::mass_bits))]
pub fn mass_bits(file: &[u8], offset: usize, spare: u32, b: usize, j: usize) -> u64
    requires { mass_place offset spare b j + 8 ≤ length file.now }
    ensures { result ≡ mass_bits file.now offset spare b j }
{
    let mass_bytes = MASS_BYTES + CENTRE_BYTES * (spare as usize);
    word(file, offset + mass_bytes * b + 8 * j)
}

// Number j of 3 of the centre of body b: the bits of +0.0 where the file has no centres.
pub fn centre_bits(file: &[u8], offset: usize, spare: u32, b: usize, j: usize) -> u64
    requires { (j < 3) × (masses_end offset spare (b + 1) ≤ length file.now) }
    ensures { result ≡ centre_bits file.now offset spare b j }
{
    if spare == 1 {
        return mass_bits(file, offset, 1, b, 10 + j);
    }
    0
}

// The 27 numbers of each row,
pub fn read_number_bits(file: &[u8], offset: usize, rows: usize, numbers: &mut [u64])
    requires { (rows_end offset rows ≤ length file.now) × (length numbers.old ≡ 27 * rows) }
    ensures { numbers.new ≡ section_number_bits file.now offset rows }
{
    for k in 0..numbers.len() {
        numbers[k] = row_bits(file, offset, k / 27, k % 27);
    }
}

// its 8 words,
pub fn read_words(file: &[u8], offset: usize, rows: usize, words: &mut [u32])
    requires { (rows_end offset rows ≤ length file.now) × (length words.old ≡ 8 * rows) }
    ensures { words.new ≡ section_words file.now offset rows }
{
    for k in 0..words.len() {
        words[k] = row_word(file, offset, k / 8, k % 8);
    }
}

// the 10 numbers of each body
pub fn read_mass_bits(file: &[u8], offset: usize, spare: u32, bodies: usize, masses: &mut [u64])
    requires { (masses_end offset spare bodies ≤ length file.now) × (length masses.old ≡ 10 * bodies) }
    ensures { masses.new ≡ section_mass_bits file.now offset spare bodies }
{
    for k in 0..masses.len() {
        masses[k] = mass_bits(file, offset, spare, k / 10, k % 10);
    }
}

// and the 3 of its centre.
pub fn read_centre_bits(file: &[u8], offset: usize, spare: u32, bodies: usize, centres: &mut [u64])
    requires { (masses_end offset spare bodies ≤ length file.now) × (length centres.old ≡ 3 * bodies) }
    ensures { centres.new ≡ section_centre_bits file.now offset spare bodies }
{
    for k in 0..centres.len() {
        centres[k] = centre_bits(file, offset, spare, k / 3, k % 3);
    }
}
