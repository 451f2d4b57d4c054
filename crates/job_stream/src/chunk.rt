// The jobs that a chunk of the stream has whole, as many as there is room for.
ghost use Rattle.std.specs.Prelude.{◌≡◌, ◌+◌, ◌≤◌, length, drop};
ghost use Rattle.listing.specs.Written.{Wrote};
ghost use Rattle.job_stream.specs.Stream.{frame_length, front_text};
ghost use Rattle.job_stream.specs.Chunk.{goes_on, JobsWritten};

use crate::front::{frame_length, is_ready, write_front};

// The number of the job that is next, how many bytes of the stream the jobs before it take, and how long their text is.
#[derive(Clone, Copy)]
pub struct Jobs {
    pub next: u32,
    pub read: usize,
    pub wrote: usize,
}

fn goes_on(number: u32, room: usize, bytes: &[u8], at: usize) -> bool
    ensures { result ≡ goes_on number room (drop at bytes.now) }
{
    if bytes.len() < at {
        return false;
    }
    ((number < 4294967295) & (16399 <= room)) & is_ready(&bytes[at..])
}

fn next_place(bytes: &[u8], at: usize) -> usize
    requires { at + 4 ≤ length bytes.now }
    ensures { result ≡ at + frame_length (drop at bytes.now) }
{
    at + frame_length(&bytes[at..])
}

fn write_at(number: u32, bytes: &[u8], at: usize, out: &mut [u8], end: usize) -> usize
    requires at_in_bounds { at ≤ length bytes.now }
    requires end_in_bounds { end + 16399 ≤ length out.old }
    ensures { Wrote out.old end (front_text number (drop at bytes.now)) out.new result }
{
    let more = write_front(number, &bytes[at..], &mut out[end..]);
    end + more
}

// Writes their text from the first byte of `out` on. The first of them is job `number`; nothing is written of a job that is not there whole, has no number or finds less room than 16,399 bytes.
// A file of more than 65,536 bytes is refused once its length is there: then more bytes are read than the chunk has, and the stream goes on after them.
pub fn write_jobs(number: u32, bytes: &[u8], out: &mut [u8]) -> Jobs
    ensures { JobsWritten number bytes.now out.old out.new result }
{
    let mut next = number;
    let mut at = 0;
    let mut end = 0;
    while goes_on(next, out.len() - end, bytes, at) {
        end = write_at(next, bytes, at, out, end);
        at = next_place(bytes, at);
        next += 1;
    }
    Jobs {
        next,
        read: at,
        wrote: end,
    }
}
