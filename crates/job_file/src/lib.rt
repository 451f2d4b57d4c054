// The job file of document 01, with the centres of document 02: judged by refusals 1 to 4 and read into lent rows, masses and centres.

#![tactic(auto)]

pub mod fit; // fit.rt: refusals 1 to 4, each by itself; 4 of one row
pub mod judge; // judge.rt: refusals 1 to 4 in their order
pub mod layout; // layout.rt: sizes and limits
pub mod read; // read.rt: the whole job
pub mod reader; // reader.rt: the rows, judged by 4 and read through a reader that stands at one row
pub mod sections; // sections.rt: one number of a row or mass, and all of them
pub mod trailer; // trailer.rt: the 48 bytes at the end

pub use judge::judge_file;
pub use read::read_job;
pub use reader::{Reader, keys_fit, keys_here, next_row, read_rows, reader_at, row_here};
pub use sections::{
    centre_number, mass_number, put_row, read_centres, read_masses, row_number, row_word, row_words,
};
pub use trailer::{Trailer, read_trailer};
