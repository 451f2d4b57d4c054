// What the program prints: the converted file, or one line with the number of the refusal.
ghost use Rattle.std.specs.Prelude.{◌≤◌, length};
ghost use Rattle.refusals.specs.Number.{number_of};
ghost use Rattle.listing.specs.Written.{Room, Wrote};
ghost use Rattle.job_converter.specs.Program.{refused_line, converted_text};

use crate::convert::fill_converted;
use crate::judge::judge_last;
use job_file::judge::judge_trailer;
use listing::digits::put_number;
use listing::text::{put_byte, put_text};
use refusals::Refusal;

fn write_refused(refusal: Refusal, out: &mut [u8]) -> usize
    requires { Room out.old 0 (refused_line (number_of refusal)) }
    ensures { Wrote out.old 0 (refused_line (number_of refusal)) out.new result }
{
    let name = put_text(out, 0, b"convert");
    let number = put_number(out, name, refusal.number());
    put_byte(out, number, b'\n')
}

// Writes it from the first byte on, and returns its length. No file that is written has more than 38,448 bytes.
pub fn write_converted(file: &[u8], layout: u32, out: &mut [u8]) -> usize
    requires { 38448 ≤ length out.old }
    ensures { Wrote out.old 0 (converted_text file.now layout) out.new result }
{
    let trailer = match judge_trailer(file) {
        Ok(trailer) => trailer,
        Err(refusal) => return write_refused(refusal, out),
    };
    if 1 < layout {
        return write_refused(Refusal::Length, out);
    }
    if let Err(refusal) = judge_last(file, trailer, layout) {
        return write_refused(refusal, out);
    }
    fill_converted(file, trailer, layout, out)
}
