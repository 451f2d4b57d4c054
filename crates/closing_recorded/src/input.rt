// The cases of standard input, one at a time. No contract can say what is read.
ghost use Rattle.std.specs.Prelude.{◌≤◌, length};

use crate::replay::replay;
use crate::tally::Tally;
use little_endian::word;
use program_io::read_full;

// A case's length, then the rest of it, through short reads: how many bytes were read, none at the end.
// Where the length is none, its word alone is a malformed case; one that ends too soon is malformed too.
fn next_case(rt: &HostRuntime, space: &mut [u8]) -> usize
    requires { 8 ≤ length space.old }
    ensures { result ≤ length space.old }
{
    let head = read_full(rt, &mut space[..8]);
    if head < 8 {
        return head;
    }
    let size = word(space, 0) as usize;
    if size < 8 {
        return 8;
    }
    if space.len() < size {
        return 8;
    }
    8 + read_full(rt, &mut space[8..size])
}

// A list has far fewer cases than are read at most.
pub fn tallied(rt: &HostRuntime, space: &mut [u8]) -> Tally
    requires { 8 ≤ length space.old }
{
    let mut tally = Tally::none();
    for _ in 0..100000 {
        let n = next_case(rt, space);
        if n == 0 {
            return tally;
        }
        tally = tally.with(replay(&space[..n]));
    }
    tally
}
