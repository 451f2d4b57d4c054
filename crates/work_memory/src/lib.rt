// The work memory of a solve: how long it is (refusal 3), and that it is +0.0, integers 0, after every call but one refused by 3.

#![tactic(auto)]

pub mod clear; // clear.rt: the slices cleared
pub mod fit; // fit.rt: refusal 3

pub use clear::{clear_steps, clear_table};
pub use fit::{factor_fits, table_fits, vectors_fit};
