// The whole file.
ghost use Rattle.std.specs.Prelude.{length};
ghost use Rattle.refusals.specs.Told.{told};
ghost use Rattle.listing.specs.Written.{Room, Wrote};
ghost use Rattle.job_writer.specs.Written.{written};
ghost use Rattle.job_writer.specs.Fits.{Lent};
ghost use Rattle.job_writer.specs.Refusals.{Answers, written_of};

use crate::fit::{centres_fit, limits_fit, sizes_fit};
use crate::head::JobHead;
use crate::parts::{put_masses, put_rows, put_trailer};
use joint_refusals::judge::words_fit;
use refusals::Refusal;

// Writes the file from the first byte on, and returns its length.
pub fn fill_job(
    head: JobHead,
    numbers: &[u64],
    words: &[u32],
    masses: &[u64],
    centres: &[u64],
    out: &mut [u8],
) -> usize
    requires { Lent head numbers.now words.now masses.now centres.now × Room out.old 0 (written (record { head = head; numbers = numbers.now; words = words.now; masses = masses.now; centres = centres.now })) }
    ensures { Wrote out.old 0 (written (record { head = head; numbers = numbers.now; words = words.now; masses = masses.now; centres = centres.now })) out.new result }
{
    let rows = put_rows(out, 0, numbers, words, head.rows as usize);
    let masses_end = put_masses(
        out,
        rows,
        masses,
        centres,
        head.layout as usize,
        head.bodies as usize,
    );
    put_trailer(out, masses_end, head)
}

// Writes the job into `out`, or answers its refusal and writes nothing.
pub fn write_job(
    head: JobHead,
    numbers: &[u64],
    words: &[u32],
    masses: &[u64],
    centres: &[u64],
    out: &mut [u8],
) -> Result<(), Refusal>
    ensures { Answers (written_of (record { head = head; numbers = numbers.now; words = words.now; masses = masses.now; centres = centres.now }) (length out.old)) out.old (told result) out.new }
{
    if !limits_fit(head) {
        return Err(Refusal::Sections);
    }
    if !sizes_fit(
        head,
        numbers.len(),
        words.len(),
        masses.len(),
        centres.len(),
        out.len(),
    ) {
        return Err(Refusal::Length);
    }
    if !words_fit(words, head.rows as usize) {
        return Err(Refusal::Word);
    }
    if !centres_fit(centres, head.layout) {
        return Err(Refusal::Layout);
    }
    fill_job(head, numbers, words, masses, centres, out);
    Ok(())
}
