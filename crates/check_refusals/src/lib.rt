// The refusals of the closing check, in their order: 3, then 4, 27, 28, 6, 7 and 18.

#![tactic(auto)]

pub mod fit; // fit.rt: refusal 3, the counts and the lengths of what is lent
pub mod judge; // judge.rt: refusals 4, 27, 28, 6, 7 and 18
pub mod sound; // sound.rt: 4, 7 and 18 of every row in one pass

pub use fit::{TableLengths, WorkLengths, fits, given_fits};
pub use judge::judge_table;
