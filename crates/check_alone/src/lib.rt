// A closing check with work memory of its own: for at most 512 rows and 256 bodies, of positions and of velocities, and for small tables of positions, with less memory, of at most 128 rows and 64 bodies.

#![tactic(auto)]

pub mod check; // check.rt: the two checks
pub mod memory; // memory.rt: the check of either kind, with refusal 3
pub mod small; // small.rt: the check of a small table

pub use check::{checked, velocity_checked};
pub use small::checked_small;
