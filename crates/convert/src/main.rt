// The converter as a program, document 02, e: reads a job file from standard input and writes its job to standard output in the layout
// that its one argument names, `old` or `new`. Where that is refused it writes one line, `convert` and the number of the refusal:
// an argument that is neither word, none or a second one is a layout word that is none, so 3. No contract can say what is read.

#![tactic(auto)]

use job_converter::{layout_named, write_converted};
use program_io::{read_input, write_output};
use std::env::{Env, FillError};

// 2, a layout word that is none, unless there is just one argument of three letters or fewer.
fn layout_asked(rt: &HostRuntime) -> u32 {
    let mut word: [u8; 3] = [0; 3];
    let Err(FillError::NotPresent) = rt.arg(2, &mut word) else {
        return 2;
    };
    let Ok(length) = rt.arg(1, &mut word) else {
        return 2;
    };
    layout_named(&word[..length])
}

// A job file has at most 65,536 bytes. One byte more is read, so that a longer one is refused whatever it begins with. Of a file that can't be read nothing is written.
fn main(rt: HostRuntime) {
    let layout = layout_asked(&rt);
    let mut file: [u8; 65537] = [0; 65537];
    let Some(length) = read_input(&rt, b"convert", &mut file) else {
        return;
    };
    let mut text: [u8; 38448] = [0; 38448];
    let end = write_converted(&file[..length], layout, &mut text);
    write_output(&rt, b"convert", &text[..end]);
}
