// The pairs of a table: rows that share a body, their columns and values in lent flat slices.

#![tactic(auto)]

pub mod arms; // arms.rt: what a row does at its bodies
pub mod cross; // cross.rt: the value of one pair
pub mod gathering; // gathering.rt: pattern and values, with refusals 10 and 12
pub mod pattern; // pattern.rt: starts and columns
pub mod room; // room.rt: how many places are lent
pub mod values; // values.rt: the value of each place

pub use cross::cross_value;
pub use gathering::pairs;
pub use room::pair_room;
