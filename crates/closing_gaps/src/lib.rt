// Which joint is open: a closing check that gives each row's measured number, rounded |r| + E, beside its rule.

#![tactic(auto)]

pub mod entries; // entries.rt: the entry points of positions and of velocities
pub mod keep; // keep.rt: the numbers out of the work memory, and whether there is room for them
pub mod prepared; // prepared.rt: the check of either kind with its numbers, with refusal 3
pub mod small; // small.rt: the check of a small table with its numbers

pub use entries::{closing_gaps, velocity_closing_gaps};
pub use prepared::gaps_prepared;
pub use small::gaps_small;
