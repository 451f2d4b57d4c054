// The job at the front of what is left of a stream.
ghost use Rattle.std.specs.Prelude.{◌≡◌, ◌+◌, ◌≤◌, length};
ghost use Rattle.listing.specs.Written.{Room, Wrote};
ghost use Rattle.job_stream.specs.Stream.{job_line, frame_length, front_sheet, front_text};
ghost use Rattle.job_stream.specs.Chunk.{ready};

use job_sheet::{Sheet, write_sheet};
use listing::digits::put_number;
use listing::text::{put_byte, put_text};
use listing::write_refusal;
use little_endian::half;

fn job_line(number: u32, out: &mut [u8]) -> usize
    requires { Room out.old 0 (job_line number) }
    ensures { Wrote out.old 0 (job_line number) out.new result }
{
    let a = put_text(out, 0, b"job");
    let b = put_number(out, a, number);
    put_byte(out, b, b'\n')
}

// The bytes of its length and of its file.
pub fn frame_length(bytes: &[u8]) -> usize
    requires { 4 ≤ length bytes.now }
    ensures value { result ≡ frame_length bytes.now }
    ensures upper_bound { result ≤ 4294967299 }
{
    4 + half(bytes, 0) as usize
}

// Whether more bytes would not change what is printed of it.
pub fn is_ready(bytes: &[u8]) -> bool
    ensures { result ≡ ready bytes.now }
{
    if bytes.len() < 4 {
        return false;
    }
    let end = frame_length(bytes);
    if 65540 < end {
        return true;
    }
    end <= bytes.len()
}

// Its sheet, where these bytes are all that is left.
fn write_front_sheet(bytes: &[u8], out: &mut [u8]) -> usize
    requires { 16384 ≤ length out.old }
    ensures { Wrote out.old 0 (front_sheet bytes.now) out.new result }
{
    if bytes.len() < 4 {
        return write_refusal(1, out);
    }
    let end = frame_length(bytes);
    if bytes.len() < end {
        return write_refusal(1, out);
    }
    write_sheet(Sheet::Job, &bytes[4..end], out)
}

fn write_behind(bytes: &[u8], out: &mut [u8], at: usize) -> usize
    requires { at + 16384 ≤ length out.old }
    ensures { Wrote out.old at (front_sheet bytes.now) out.new result }
{
    let end = write_front_sheet(bytes, &mut out[at..]);
    at + end
}

// Its line and its sheet, where these bytes are all that is left, from the first byte of `out` on; the length of what was written. The line has at most 15 bytes.
pub fn write_front(number: u32, bytes: &[u8], out: &mut [u8]) -> usize
    requires { 16399 ≤ length out.old }
    ensures { Wrote out.old 0 (front_text number bytes.now) out.new result }
{
    let at = job_line(number, out);
    write_behind(bytes, out, at)
}
