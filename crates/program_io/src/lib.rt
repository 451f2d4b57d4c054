// Standard input and standard output of the programs. A program here has no exit status: where its input can't be read or its output not be written whole,
// one line on standard error tells of it, the program's name, which of the two and why. No contract can say what is read or written.

#![tactic(auto)]

ghost use Rattle.program_io.specs.Input.{Filled, IsPrefixLen};

use std::io::{Error, Read};

fn tell(rt: &HostRuntime, program: &[u8], what: &str, reason: Error) {
    let _ = rt.stderr().write_all(program);
    let _ = eprintln!(rt; ": {what}: {reason}");
}

// One read: how many bytes now stand at the front of the space, 0 where the input has ended. A read that fails is told, and there is no number.
pub fn read_some(rt: &HostRuntime, program: &[u8], space: &mut [u8]) -> Option<usize>
    ensures { Filled result space.new }
{
    match rt.stdin().read(space) {
        Ok(count) => Some(count),
        Err(reason) => {
            tell(rt, program, "standard input", reason);
            None
        }
    }
}

// Reads on until the space is full or the input ends.
pub fn read_input(rt: &HostRuntime, program: &[u8], space: &mut [u8]) -> Option<usize>
    ensures { Filled result space.new }
{
    let mut done = 0;
    while done < space.len() {
        let more = read_some(rt, program, &mut space[done..])?;
        if more == 0 {
            break;
        }
        done += more;
    }
    Some(done)
}

// Writes all of the text and answers true. Where not all of it is taken, this is told.
pub fn write_output(rt: &HostRuntime, program: &[u8], text: &[u8]) -> bool {
    match rt.write_all(text) {
        Ok(()) => true,
        Err(reason) => {
            tell(rt, program, "standard output", reason);
            false
        }
    }
}

// Reads on until the space is full, the input ends or a read fails, and answers how many bytes now stand at its front. A read that fails is not told.
pub fn read_full(rt: &HostRuntime, space: &mut [u8]) -> usize
    ensures { IsPrefixLen result space.new }
{
    let mut done = 0;
    while done < space.len() {
        let Ok(more) = rt.stdin().read(&mut space[done..]) else {
            break;
        };
        if more == 0 {
            break;
        }
        done += more;
    }
    done
}
