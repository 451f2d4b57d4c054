// A job file to a job file in the layout asked for.
ghost use Rattle.std.specs.Prelude.{◌≤◌, length};
ghost use Rattle.refusals.specs.Told.{told};
ghost use Rattle.listing.specs.Written.{Wrote};
ghost use Rattle.job_writer.specs.JobBits.{job_bits_of};
ghost use Rattle.job_writer.specs.Written.{written};
ghost use Rattle.job_writer.specs.Refusals.{Answers};
ghost use Rattle.job_converter.specs.Opened.{Opened, BitsRoom};
ghost use Rattle.job_converter.specs.Converted.{in_layout, converted_length, converted_of};

use crate::judge::{judge_last, output_fits};
use crate::read::{read_bits, read_head};
use job_file::Trailer;
use job_file::judge::judge_trailer;
use job_writer::fill_job;
use refusals::Refusal;

// The job through memory as long as its counts call for.
fn fill_lent(
    file: &[u8],
    trailer: Trailer,
    layout: u32,
    numbers: &mut [u64],
    words: &mut [u32],
    masses: &mut [u64],
    centres: &mut [u64],
    out: &mut [u8],
) -> usize
    requires opened { Opened file.now trailer }
    requires bits_room { BitsRoom trailer (length numbers.old) (length words.old) (length masses.old) (length centres.old) }
    requires layout_bound { (layout ≤ 1) × (converted_length trailer layout ≤ length out.old) }
    ensures { Wrote out.old 0 (written (in_layout layout (job_bits_of file.now))) out.new result }
{
    read_bits(file, trailer, numbers, words, masses, centres);
    let head = read_head(file, trailer, layout);
    fill_job(head, numbers, words, masses, centres, out)
}

// Memory for 128 rows and 64 bodies.
pub fn fill_converted(file: &[u8], trailer: Trailer, layout: u32, out: &mut [u8]) -> usize
    requires opened { Opened file.now trailer }
    requires layout_bound { (layout ≤ 1) × (converted_length trailer layout ≤ length out.old) }
    ensures { Wrote out.old 0 (written (in_layout layout (job_bits_of file.now))) out.new result }
{
    let mut numbers: [u64; 3456] = [0; 3456];
    let mut words: [u32; 1024] = [0; 1024];
    let mut masses: [u64; 640] = [0; 640];
    let mut centres: [u64; 192] = [0; 192];
    let rows = trailer.rows as usize;
    let bodies = trailer.bodies as usize;
    let row_numbers = 27 * rows;
    let row_words = 8 * rows;
    let mass_numbers = 10 * bodies;
    let centre_numbers = 3 * bodies;
    fill_lent(
        file,
        trailer,
        layout,
        &mut numbers[..row_numbers],
        &mut words[..row_words],
        &mut masses[..mass_numbers],
        &mut centres[..centre_numbers],
        out,
    )
}

// Writes the file's job into `out` in this layout, or answers the refusal and writes nothing.
pub fn convert_job(file: &[u8], layout: u32, out: &mut [u8]) -> Result<(), Refusal>
    ensures { Answers (converted_of file.now layout (length out.old)) out.old (told result) out.new }
{
    let trailer = judge_trailer(file)?;
    if !output_fits(trailer, layout, out.len()) {
        return Err(Refusal::Length);
    }
    judge_last(file, trailer, layout)?;
    fill_converted(file, trailer, layout, out);
    Ok(())
}
