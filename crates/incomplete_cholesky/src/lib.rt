// Mode 1: the incomplete Cholesky factor of a table's pairs, with its index by column.

#![tactic(auto)]

pub mod build; // build.rt: pairs, factor and index, with refusals 10, 12 and 13

pub use build::build_incomplete_cholesky_preconditioner;
