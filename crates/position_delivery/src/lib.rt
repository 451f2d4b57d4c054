// What is delivered of the step counted, with refusal 17, and the answer of a solve.

#![tactic(auto)]

pub mod answer; // answer.rt: flag, count and maxima
pub mod delivery; // delivery.rt: multipliers, solution and impulses
pub mod impulses; // impulses.rt: impulses in the order of document 01

pub use answer::PositionPcgResult;
pub use delivery::{commit, gain_after, propose_and_clear};
