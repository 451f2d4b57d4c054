// Refusal 18 of document 01: the numbers of a closing check are zero or from 2^-150 to 2^150 in size.

#![tactic(auto)]

pub mod number; // number.rt: one number, vector, matrix, row or mass
pub mod table; // table.rt: the lent tables and the listed multipliers

pub use table::{error_at, masses_in_range, row_in_range_at, table_in_range};
