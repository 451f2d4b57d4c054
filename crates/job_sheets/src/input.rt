// The files of standard input, one at a time. No contract can say what is read.
ghost use Rattle.std.specs.Prelude.{◌≤◌, length};

use crate::lent::print_lent;
use job_sheet::{Sheet, write_sheet};
use little_endian::half;
use program_io::read_full;

// A file's length, then the file, through short reads: how many bytes were read, none at the end. A length that the space has not the room for ends the list.
fn next_file(rt: &HostRuntime, space: &mut [u8]) -> usize
    requires { 4 ≤ length space.old }
    ensures { result ≤ length space.old }
{
    let head = read_full(rt, &mut space[..4]);
    if head < 4 {
        return 0;
    }
    let end = 4 + half(space, 0) as usize;
    if space.len() < end {
        return 0;
    }
    4 + read_full(rt, &mut space[4..end])
}

fn print_sheet(rt: &HostRuntime, sheet: Sheet, file: &[u8], text: &mut [u8])
    requires { 16384 ≤ length text.old }
{
    let end = write_sheet(sheet, file, text);
    let _ = rt.write_all(&text[..end]);
}

// A list has far fewer files than are read at most.
pub fn print_sheets(rt: &HostRuntime, sheet: Sheet, space: &mut [u8], text: &mut [u8])
    requires in_bounds { 4 ≤ length space.old }
    requires in_bounds_2 { 16384 ≤ length text.old }
{
    for _ in 0..1000 {
        let end = next_file(rt, space);
        if end < 4 {
            return;
        }
        print_sheet(rt, sheet, &space[4..end], text);
    }
}

// The same through the functions for C.
pub fn print_lent_sheets(rt: &HostRuntime, space: &mut [u8], text: &mut [u8])
    requires in_bounds { 4 ≤ length space.old }
    requires in_bounds_2 { 16384 ≤ length text.old }
{
    for _ in 0..1000 {
        let end = next_file(rt, space);
        if end < 4 {
            return;
        }
        print_lent(rt, &space[4..end], text);
    }
}
