// The sheet of a job: what the job program, the margins program and the gaps program print of a file.

#![tactic(auto)]

pub mod accepted; // accepted.rt: an accepted job, checked and listed
pub mod gaps; // gaps.rt: an accepted job, checked, and the measured numbers of its rows
pub mod margins; // margins.rt: an accepted job, checked, and the margins of its rows
pub mod program; // program.rt: standard input to lines
pub mod sheet; // sheet.rt: the file judged and read, and its job solved
pub mod solved; // solved.rt: an accepted job, by the program that prints it
pub mod turned; // turned.rt: a refused job, by the program that prints it
pub mod which; // which.rt: the three programs

pub use program::{print_gaps, print_job, print_margins};
pub use sheet::write_sheet;
pub use which::Sheet;
