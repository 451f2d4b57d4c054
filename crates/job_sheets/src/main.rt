// Replays stored job files through `write_sheet` and prints the sheet of each; `stdout` has what an independent reader of the format prints.
// The list: document 01's P1 to P9 (P4 at both limits), the sample jobs, generated files in every placement, some of them damaged,
// three of each kind of answer, and files at the edges of refusals 1 and 2. oracle/sheets.py makes it: each file is preceded by its length, a 32-bit word, little end first.
// A second list is printed as the gaps program prints it: files of the first one, two of each kind of answer. A third, of jobs with 8 rows and 4 bodies, goes through the functions for C.
// Then the job program itself, as `job` calls it, on what is left of standard input: the 65,537 bytes that it reads at most, and a file with the longest sheet.

#![tactic(auto)]

mod input; // input.rt: the files of standard input
mod lent; // lent.rt: a job through the functions for C

use job_sheet::{Sheet, print_job};

fn main(rt: HostRuntime) {
    let mut space: [u8; 65541] = [0; 65541];
    let mut text: [u8; 16384] = [0; 16384];
    input::print_sheets(&rt, Sheet::Job, &mut space, &mut text);
    input::print_sheets(&rt, Sheet::Gaps, &mut space, &mut text);
    input::print_lent_sheets(&rt, &mut space, &mut text);
    print_job(&rt);
    print_job(&rt);
}
