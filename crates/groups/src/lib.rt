// Rows that belong together: a group number for each row of a table, and the group of each body. Document 02, g.

#![tactic(auto)]

pub mod group; // group.rt: a group number for each row
pub mod mark; // mark.rt: the group of each body
pub mod mass; // mass.rt: bodies that join nothing

pub use group::group_rows;
pub use mark::mark_bodies;
