// Refusals 1 to 4 of a job file, each by itself: true where it does not apply.
ghost use Rattle.std.specs.Prelude.{◌≡◌, ◌+◌, ◌≤◌, length};
ghost use Rattle.job_file.specs.Layout.{rows_end};
ghost use Rattle.job_file.specs.Refusals.{size_fits, sections_fit, lengths_fit};
ghost use Rattle.job_file.specs.File.{row_words};
ghost use Rattle.joint_refusals.specs.Refusals.{words_fit_of};

use crate::layout::{CENTRE_BYTES, MASS_BYTES, MAX_BODIES, MAX_BYTES, MAX_ROWS, ROW_BYTES};
use crate::sections::row_words;
use crate::trailer::Trailer;
use joint_refusals::judge::row_words_fit;

// Refusal 1, of a file that has a trailer and as many bytes as `length`.
#[tactic(auto, unfolding(crate::specs::Refusals::size_fits))]
pub fn size_fits(t: Trailer, length: usize) -> bool
    ensures { result ≡ size_fits t length }
{
    (length <= MAX_BYTES) & (t.file_length as usize == length) & (t.spare <= 1)
}

// Refusal 2, of a file that passes 1. The sums are of 32-bit numbers and are made in 64 bits.
#[tactic(auto, using(crate::proofs::Masses::masses_most), unfolding(crate::specs::Refusals::sections_fit, crate::specs::Refusals::limits_fit, crate::specs::Refusals::apart, crate::specs::Refusals::ends_fit))]
pub fn sections_fit(t: Trailer, trailer_at: usize) -> bool
    requires { t.spare ≤ 1 }
    ensures { result ≡ sections_fit t trailer_at }
{
    let rows = t.row_offset as u64;
    let rows_end = rows + ROW_BYTES as u64 * (t.rows as u64);
    let masses = t.mass_offset as u64;
    let mass_bytes = MASS_BYTES as u64 + CENTRE_BYTES as u64 * (t.spare as u64);
    let masses_end = masses + mass_bytes * (t.bodies as u64);
    let end = trailer_at as u64;
    let limits = (t.rows <= MAX_ROWS) & (t.bodies <= MAX_BODIES);
    let apart = (t.rows == 0) | (t.bodies == 0) | (rows_end <= masses) | (masses_end <= rows);
    let ends = (rows_end <= end) & (masses_end <= end);
    limits & apart & ends
}

// Refusal 3, of what is lent for the job.
#[tactic(auto, unfolding(crate::specs::Refusals::lengths_fit))]
pub fn lengths_fit(t: Trailer, numbers: usize, words: usize, masses: usize, centres: usize) -> bool
    ensures { result ≡ lengths_fit t numbers words masses centres }
{
    let rows = t.rows as usize;
    let bodies = t.bodies as usize;
    (numbers == 27 * rows) & (words == 8 * rows) & (masses == 10 * bodies) & (centres == 3 * bodies)
}

// Refusal 4, of one row. The reader judges all of them (reader.rt).
pub fn row_keys_fit(file: &[u8], offset: usize, i: usize) -> bool
    requires { rows_end offset (i + 1) ≤ length file.now }
    ensures { result ≡ words_fit_of (row_words file.now offset i) }
{
    row_words_fit(row_words(file, offset, i))
}
