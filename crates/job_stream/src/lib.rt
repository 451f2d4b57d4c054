// Many jobs at once: a stream of job files, and the sheet of each.

#![tactic(auto)]

pub mod chunk; // chunk.rt: the jobs that a chunk of the stream has whole
pub mod front; // front.rt: the job at the front of what is left of the stream
pub mod program; // program.rt: standard input to lines

pub use chunk::{Jobs, write_jobs};
pub use front::write_front;
pub use program::print_jobs;
