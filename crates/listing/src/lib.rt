// The listings of the job program, document 01, "Sheets to try", of the margins program, document 02, m, and of the gaps program, written into lent bytes.

#![tactic(auto)]

pub mod digits; // digits.rt: numbers as text
pub mod lines; // lines.rt: one line, and those of all rows, bodies, margins and gaps
pub mod whole; // whole.rt: the whole listing
pub mod text; // text.rt: bytes as they are

pub use whole::{
    write_gaps, write_listing, write_margins, write_refusal, write_refused_body,
    write_refused_limit, write_refused_row,
};
