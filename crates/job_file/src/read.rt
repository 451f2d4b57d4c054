// The whole job into lent memory.
ghost use Rattle.refusals.specs.Told.{told};
ghost use Rattle.job_file.specs.Job.{Reads};

use crate::fit::lengths_fit;
use crate::judge::judge_trailer;
use crate::reader::{keys_fit, read_rows};
use crate::sections::{read_centres, read_masses};
use crate::trailer::Trailer;
use refusals::Refusal;

// Judges the file as `judge_file` does, refuses by 3 also where a lent slice has not the length that the counts call for,
// and reads the job. A refused call writes nothing.
pub fn read_job(
    file: &[u8],
    numbers: &mut [f64],
    words: &mut [u32],
    masses: &mut [f64],
    centres: &mut [f64],
) -> Result<Trailer, Refusal>
    ensures { Reads file.now numbers.old words.old masses.old centres.old (told result) numbers.new words.new masses.new centres.new }
{
    let trailer = judge_trailer(file)?;
    if !lengths_fit(
        trailer,
        numbers.len(),
        words.len(),
        masses.len(),
        centres.len(),
    ) {
        return Err(Refusal::Length);
    }
    let rows = trailer.rows as usize;
    let bodies = trailer.bodies as usize;
    let row_offset = trailer.row_offset as usize;
    let mass_offset = trailer.mass_offset as usize;
    if !keys_fit(file, row_offset, rows) {
        return Err(Refusal::Word);
    }
    read_rows(file, row_offset, rows, numbers, words);
    read_masses(file, mass_offset, trailer.spare, bodies, masses);
    read_centres(file, mass_offset, trailer.spare, bodies, centres);
    Ok(trailer)
}
