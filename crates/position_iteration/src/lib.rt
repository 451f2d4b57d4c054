// The loop over the steps of a solve: a step, and what is carried to the next.

#![tactic(auto)]

pub mod iteration; // iteration.rt: the loop over the steps
pub mod turn; // turn.rt: a step, and what is carried to the next

pub use iteration::iterate;
