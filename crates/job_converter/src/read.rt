// The whole job by its bits, of a file that has passed 1 to 3.
ghost use Rattle.std.specs.Prelude.{◌≡◌, length};
ghost use Rattle.job_file.specs.Job.{file_words};
ghost use Rattle.job_writer.specs.JobBits.{head_of, file_number_bits, file_mass_bits, file_centre_bits};
ghost use Rattle.job_converter.specs.Opened.{Opened, BitsRoom};
ghost use Rattle.job_converter.specs.Converted.{head_in};

use crate::bits::{read_centre_bits, read_mass_bits, read_number_bits, read_words};
use job_file::Trailer;
use job_file::layout::TRAILER_BYTES;
use job_writer::JobHead;
use little_endian::word;

// Its lists,
pub fn read_bits(
    file: &[u8],
    trailer: Trailer,
    numbers: &mut [u64],
    words: &mut [u32],
    masses: &mut [u64],
    centres: &mut [u64],
)
    requires { Opened file.now trailer × BitsRoom trailer (length numbers.old) (length words.old) (length masses.old) (length centres.old) }
    ensures { (numbers.new ≡ file_number_bits file.now) × (words.new ≡ file_words file.now) × (masses.new ≡ file_mass_bits file.now) × (centres.new ≡ file_centre_bits file.now) }
{
    let rows = trailer.rows as usize;
    let bodies = trailer.bodies as usize;
    let row_offset = trailer.row_offset as usize;
    let mass_offset = trailer.mass_offset as usize;
    read_number_bits(file, row_offset, rows, numbers);
    read_words(file, row_offset, rows, words);
    read_mass_bits(file, mass_offset, trailer.spare, bodies, masses);
    read_centre_bits(file, mass_offset, trailer.spare, bodies, centres);
}

// and its head, in the layout asked for.
pub fn read_head(file: &[u8], trailer: Trailer, layout: u32) -> JobHead
    requires { Opened file.now trailer }
    ensures { result ≡ head_in layout (head_of file.now) }
{
    let at = file.len() - TRAILER_BYTES;
    JobHead {
        rows: trailer.rows,
        bodies: trailer.bodies,
        limit: trailer.limit,
        mode: trailer.mode,
        layout,
        linear: word(file, at + 24),
        angular: word(file, at + 32),
    }
}
