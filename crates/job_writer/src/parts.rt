// The parts of a job file.
ghost use Rattle.std.specs.Prelude.{◌≡◌, ◌+◌, ◌*◌, ◌≤◌, length};
ghost use Rattle.listing.specs.Written.{Room, Wrote, pieces};
ghost use Rattle.job_writer.specs.Written.{file_length, written_length, written_row, written_mass, written_counts, written_end, written_trailer};

use crate::bytes::{put_doubles, put_halves, put_u32, put_u64};
use crate::head::JobHead;

// Row i: 27 doubles, then 8 words.
fn put_row(out: &mut [u8], at: usize, numbers: &[u64], words: &[u32], i: usize) -> usize
    requires { (27 * i + 27 ≤ length numbers.now) × (8 * i + 8 ≤ length words.now) × Room out.old at (written_row numbers.now words.now i) }
    ensures { Wrote out.old at (written_row numbers.now words.now i) out.new result }
{
    let next = put_doubles(out, at, numbers, 27 * i, 27);
    put_halves(out, next, words, 8 * i, 8)
}

pub fn put_rows(out: &mut [u8], at: usize, numbers: &[u64], words: &[u32], rows: usize) -> usize
    requires { (27 * rows ≤ length numbers.now) × (8 * rows ≤ length words.now) × Room out.old at (pieces (written_row numbers.now words.now) rows) }
    ensures { Wrote out.old at (pieces (written_row numbers.now words.now) rows) out.new result }
{
    let mut next = at;
    for i in 0..rows {
        next = put_row(out, next, numbers, words, i);
    }
    next
}

// Body b: ten doubles; in layout 1 three more, its centre.
fn put_mass(
    out: &mut [u8],
    at: usize,
    masses: &[u64],
    centres: &[u64],
    layout: usize,
    b: usize,
) -> usize
    requires { (layout ≤ 1) × (10 * b + 10 ≤ length masses.now) × (3 * b + 3 ≤ length centres.now) × Room out.old at (written_mass masses.now centres.now layout b) }
    ensures { Wrote out.old at (written_mass masses.now centres.now layout b) out.new result }
{
    let next = put_doubles(out, at, masses, 10 * b, 10);
    put_doubles(out, next, centres, 3 * b, 3 * layout)
}

pub fn put_masses(
    out: &mut [u8],
    at: usize,
    masses: &[u64],
    centres: &[u64],
    layout: usize,
    bodies: usize,
) -> usize
    requires { (layout ≤ 1) × (10 * bodies ≤ length masses.now) × (3 * bodies ≤ length centres.now) × Room out.old at (pieces (written_mass masses.now centres.now layout) bodies) }
    ensures { Wrote out.old at (pieces (written_mass masses.now centres.now layout) bodies) out.new result }
{
    let mut next = at;
    for b in 0..bodies {
        next = put_mass(out, next, masses, centres, layout, b);
    }
    next
}

// Counts, limit and mode,
fn put_counts(out: &mut [u8], at: usize, head: JobHead) -> usize
    requires { Room out.old at (written_counts head) }
    ensures { Wrote out.old at (written_counts head) out.new result }
{
    let a = put_u32(out, at, head.rows);
    let b = put_u32(out, a, head.bodies);
    let c = put_u32(out, b, head.limit);
    put_u32(out, c, head.mode)
}

// tolerances, length and spare.
fn put_end(out: &mut [u8], at: usize, head: JobHead, bytes: u32) -> usize
    requires { Room out.old at (written_end head bytes) }
    ensures { Wrote out.old at (written_end head bytes) out.new result }
{
    let a = put_u64(out, at, head.linear);
    let b = put_u64(out, a, head.angular);
    let c = put_u32(out, b, bytes);
    put_u32(out, c, head.layout)
}

// How many bytes a job has, by its counts and its layout,
pub fn file_length(rows: u32, bodies: u32, layout: u32) -> u32
    requires { (rows ≤ 128) × (bodies ≤ 64) × (layout ≤ 1) }
    ensures { result ≡ file_length rows bodies layout }
{
    if layout == 0 {
        return 248 * rows + 80 * bodies + 48;
    }
    248 * rows + 104 * bodies + 48
}

// and the same for any caller: 0 where 2 or 3 turns the counts or the layout back, and there is no file.
pub fn written_length(rows: u32, bodies: u32, layout: u32) -> u32
    ensures { result ≡ written_length rows bodies layout }
{
    let few = (rows <= 128) & (bodies <= 64) & (layout <= 1);
    if !few {
        return 0;
    }
    file_length(rows, bodies, layout)
}

pub fn put_trailer(out: &mut [u8], at: usize, head: JobHead) -> usize
    requires { (head.rows ≤ 128) × (head.bodies ≤ 64) × (head.layout ≤ 1) × Room out.old at (written_trailer head) }
    ensures { Wrote out.old at (written_trailer head) out.new result }
{
    let a = put_counts(out, at, head);
    let b = put_u32(out, a, 0);
    let c = put_u32(out, b, 248 * head.rows);
    let bytes = file_length(head.rows, head.bodies, head.layout);
    put_end(out, c, head, bytes)
}
