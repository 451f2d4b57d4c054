// The program: reads a stream of job files from standard input and prints the sheet of each once its file is there. No contract can say what is read or printed;
// that what `write_jobs` writes, call after call, is the text of the whole stream is the law `chunk_step`, and of a file that it ends in `stream_cut`.
ghost use Rattle.std.specs.Prelude.{◌≡◌, ◌+◌, ◌-◌, ◌≤◌, length, drop};
ghost use Rattle.std.proofs.Math.Seq.{paste};
ghost use Rattle.job_stream.specs.Left.{Leaves, Moves};

use crate::chunk::write_jobs;
use crate::front::write_front;
use program_io::{read_some, write_output};

// The number of the job that is next, how many bytes are kept for it, and how many bytes that are still to come belong to a refused file and are passed over.
#[derive(Clone, Copy)]
pub struct Unread {
    pub number: u32,
    pub kept: usize,
    pub passed: usize,
}

fn no_number(rt: &HostRuntime) {
    let _ = eprintln!(rt; "jobs: no number is left for the next job");
}

// Prints the jobs that these bytes have whole, and answers what is left. The last of the bytes are kept. Where nothing more can be printed, which has been told, nothing is left.
fn print_ready(rt: &HostRuntime, number: u32, bytes: &[u8], text: &mut [u8]) -> Option<Unread>
    requires { 16399 ≤ length text.old }
    ensures { Leaves result number bytes.now }
{
    let mut next = number;
    let mut at = 0;
    while at < bytes.len() {
        if 4294967295 <= next {
            no_number(rt);
            return None;
        }
        let left = bytes.len() - at;
        let jobs = write_jobs(next, &bytes[at..], text);
        let wrote = jobs.wrote;
        if jobs.next <= next {
            return Some(Unread {
                number: next,
                kept: left,
                passed: 0,
            });
        }
        if !write_output(rt, b"jobs", &text[..wrote]) {
            return None;
        }
        next = jobs.next;
        if left <= jobs.read {
            return Some(Unread {
                number: next,
                kept: 0,
                passed: jobs.read - left,
            });
        }
        at += jobs.read;
    }
    Some(Unread {
        number: next,
        kept: 0,
        passed: 0,
    })
}

// The bytes from `from` to `to` become the first ones.
fn move_down(space: &mut [u8], from: usize, to: usize)
    requires { (from ≤ to) × (to ≤ length space.old) }
    ensures { space.new ≡ paste space.old 0 (drop from space.old) (to - from) }
{
    space.copy_within(from..to, 0);
}

// So many bytes more stand behind those that were kept at the front of the space. What is kept then stands there again.
fn print_more(
    rt: &HostRuntime,
    unread: Unread,
    more: usize,
    space: &mut [u8],
    text: &mut [u8],
) -> Option<Unread>
    requires { (unread.kept + more ≤ length space.old) × (16399 ≤ length text.old) }
    ensures { Moves unread more space.old space.new result }
{
    let to = unread.kept + more;
    let passed = unread.passed;
    if to <= passed {
        return Some(Unread {
            number: unread.number,
            kept: 0,
            passed: passed - to,
        });
    }
    let left = print_ready(rt, unread.number, &space[passed..to], text)?;
    move_down(space, to - left.kept, to);
    Some(left)
}

// The stream has ended; where it ends inside a job, that is the last one.
fn print_last(rt: &HostRuntime, number: u32, bytes: &[u8], text: &mut [u8])
    requires { 16399 ≤ length text.old }
{
    if bytes.len() == 0 {
        return;
    }
    let end = write_front(number, bytes, text);
    write_output(rt, b"jobs", &text[..end]);
}

// No stream takes 2^64 reads: that is 584 years of one every nanosecond.
fn print_stream(rt: &HostRuntime, space: &mut [u8], text: &mut [u8])
    requires { (65540 ≤ length space.old) × (16399 ≤ length text.old) }
{
    let mut number = 0;
    let mut kept = 0;
    let mut passed = 0;
    'stream: for _ in 0..u64::MAX {
        let Some(more) = read_some(rt, b"jobs", &mut space[kept..]) else {
            return;
        };
        if more == 0 {
            print_last(rt, number, &space[..kept], text);
            return;
        }
        let left = print_more(
            rt,
            Unread {
                number,
                kept,
                passed,
            },
            more,
            space,
            text,
        );
        let Some(unread) = left else {
            return;
        };
        number = unread.number;
        kept = unread.kept;
        passed = unread.passed;
    }
}

pub fn print_jobs(rt: &HostRuntime) {
    let mut space: [u8; 131072] = [0; 131072];
    let mut text: [u8; 131072] = [0; 131072];
    print_stream(rt, &mut space, &mut text);
}
