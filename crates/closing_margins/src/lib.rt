// What would open the joint, document 02, m: the rows of a closed check, each with the smallest tolerance at which it still closes.

#![tactic(auto)]

pub mod closed; // closed.rt: the list of a closed check, and whether there is room for it
pub mod entries; // entries.rt: the entry points of positions and of velocities
pub mod prepared; // prepared.rt: the check of either kind with its list, with refusal 3
pub mod small; // small.rt: the check of a small table with its list

pub use entries::{closing_margins, velocity_closing_margins};
pub use prepared::margins_prepared;
pub use small::margins_small;
