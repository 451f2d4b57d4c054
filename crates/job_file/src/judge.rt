// Refusals 1 to 4 of a job file in their order.
ghost use Rattle.std.specs.Prelude.{◌≡◌};
ghost use Rattle.refusals.specs.Told.{told};
ghost use Rattle.job_file.specs.Job.{opened_of, judged_of};

use crate::fit::{sections_fit, size_fits};
use crate::layout::TRAILER_BYTES;
use crate::reader::keys_fit;
use crate::trailer::{Trailer, read_trailer};
use joint_refusals::counts_fit;
use refusals::Refusal;

// Refusals 1 to 3, which the trailer decides.
pub fn judge_trailer(file: &[u8]) -> Result<Trailer, Refusal>
    ensures { told result ≡ opened_of file.now }
{
    let length = file.len();
    if length < TRAILER_BYTES {
        return Err(Refusal::File);
    }
    let trailer = read_trailer(file);
    if !size_fits(trailer, length) {
        return Err(Refusal::File);
    }
    if !sections_fit(trailer, length - TRAILER_BYTES) {
        return Err(Refusal::Sections);
    }
    if !counts_fit(trailer.rows, trailer.bodies, trailer.mode) {
        return Err(Refusal::Length);
    }
    Ok(trailer)
}

// Does the file hold a job? Nothing is lent here, so that refusal 3 is of the counts and the mode alone.
pub fn judge_file(file: &[u8]) -> Result<Trailer, Refusal>
    ensures { told result ≡ judged_of file.now }
{
    let trailer = judge_trailer(file)?;
    if !keys_fit(file, trailer.row_offset as usize, trailer.rows as usize) {
        return Err(Refusal::Word);
    }
    Ok(trailer)
}
