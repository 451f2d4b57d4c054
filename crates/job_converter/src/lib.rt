// The converter of job files, document 02, e: a job file's numbers by their 64 bits, and its job written in the layout asked for.

#![tactic(auto)]

pub mod bits; // bits.rt: one number of a row or mass by its bits, and all of them
pub mod convert; // convert.rt: a job file to a job file
pub mod judge; // judge.rt: what is judged after 1 to 3
pub mod read; // read.rt: the whole job
pub mod text; // text.rt: what the program prints
pub mod word; // word.rt: the layout that its argument names

pub use convert::convert_job;
pub use read::read_bits;
pub use text::write_converted;
pub use word::layout_named;
