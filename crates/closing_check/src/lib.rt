// The closing check of document 01: every joint's gap, measured from the finished multipliers, with a proved radius.

#![tactic(auto)]

pub mod check; // check.rt: the check, once refusal 3 has passed
pub mod entries; // entries.rt: the entry points of positions and of velocities
pub mod prepared; // prepared.rt: the check of either kind, with refusal 3

pub use check_answer::Verdict;
pub use entries::{closing_check, velocity_closing_check};
pub use prepared::check_prepared;
