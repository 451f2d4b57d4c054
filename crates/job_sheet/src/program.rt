// The programs: each reads a job file from standard input and prints its sheet. No contract can say what is read.
use crate::sheet::write_sheet;
use crate::which::Sheet;
use program_io::{read_input, write_output};

// A file has at most 65,536 bytes. One byte more is read, so that a longer one is refused whatever it begins with. Of a file that can't be read nothing is printed.
fn print_sheet(rt: &HostRuntime, program: &[u8], sheet: Sheet) {
    let mut file: [u8; 65537] = [0; 65537];
    let Some(length) = read_input(rt, program, &mut file) else {
        return;
    };
    let mut text: [u8; 16384] = [0; 16384];
    let end = write_sheet(sheet, &file[..length], &mut text);
    write_output(rt, program, &text[..end]);
}

// The job program of document 01.
pub fn print_job(rt: &HostRuntime) {
    print_sheet(rt, b"job", Sheet::Job);
}

// The margins of a closed sheet, document 02, m.
pub fn print_margins(rt: &HostRuntime) {
    print_sheet(rt, b"margins", Sheet::Margins);
}

// Each row's measured number.
pub fn print_gaps(rt: &HostRuntime) {
    print_sheet(rt, b"gaps", Sheet::Gaps);
}
