// What is judged of a file that has passed 1 and 2, besides its counts and mode: 3 of the output, 4 and 24.
ghost use Rattle.std.specs.Prelude.{◌≡◌, ◌≤◌};
ghost use Rattle.job_writer.specs.JobBits.{file_centre_bits};
ghost use Rattle.job_writer.specs.Refusals.{centres_fit};
ghost use Rattle.job_converter.specs.Opened.{Opened};
ghost use Rattle.job_converter.specs.Converted.{output_fits, last_tests};
ghost use Rattle.loops.specs.Judge.{judge};
ghost use Rattle.refusals.specs.Told.{told};

use crate::bits::read_centre_bits;
use job_file::{Trailer, keys_fit};
use job_writer::{centres_fit, file_length};
use refusals::Refusal;

// Is the layout known, and has the output the length that it calls for?
pub fn output_fits(trailer: Trailer, layout: u32, out: usize) -> bool
    requires { (trailer.rows ≤ 128) × (trailer.bodies ≤ 64) }
    ensures { result ≡ output_fits trailer layout out }
{
    if 1 < layout {
        return false;
    }
    let bytes = file_length(trailer.rows, trailer.bodies, layout) as usize;
    out == bytes
}

// Does 24 pass the file's centres?
fn file_centres_fit(file: &[u8], trailer: Trailer, layout: u32) -> bool
    requires { Opened file.now trailer }
    ensures { result ≡ centres_fit (file_centre_bits file.now) layout }
{
    let mut centres: [u64; 192] = [0; 192];
    let bodies = trailer.bodies as usize;
    let mass_offset = trailer.mass_offset as usize;
    let lent = &mut centres[..3 * bodies];
    read_centre_bits(file, mass_offset, trailer.spare, bodies, lent);
    centres_fit(lent, layout)
}

// 4, then 24.
pub fn judge_last(file: &[u8], trailer: Trailer, layout: u32) -> Result<(), Refusal>
    requires { Opened file.now trailer }
    ensures { told result ≡ judge (last_tests file.now layout) }
{
    if !keys_fit(file, trailer.row_offset as usize, trailer.rows as usize) {
        return Err(Refusal::Word);
    }
    if !file_centres_fit(file, trailer, layout) {
        return Err(Refusal::Layout);
    }
    Ok(())
}
