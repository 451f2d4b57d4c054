// Triangular solves with a sparse factor in lent flat slices: the index by column, the forward and the backward solve.

#![tactic(auto)]

pub mod columns; // columns.rt: the places in order of their columns
pub mod substitution; // substitution.rt: the forward and the backward solve

pub use columns::index;
pub use substitution::{Overflow, solve};
