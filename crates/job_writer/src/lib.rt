// The writer of job files, document 02, e: one written form for each job, in lent bytes.

#![tactic(auto)]

pub mod bytes; // bytes.rt: numbers as bytes, the lowest first
pub mod fit; // fit.rt: refusals 2, 3 and 24, each by itself
pub mod head; // head.rt: counts, limit, mode, layout and tolerances
pub mod parts; // parts.rt: a row, a mass, the trailer
pub mod whole; // whole.rt: the whole file

pub use fit::centres_fit;
pub use head::JobHead;
pub use parts::{file_length, written_length};
pub use whole::{fill_job, write_job};
