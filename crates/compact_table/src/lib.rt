// The compact table of Jacobians: what the mass operator and the factors read of the rows, gathered once.

#![tactic(auto)]

pub mod compact; // compact.rt: twelve doubles and two body numbers a row

pub use compact::{compact_at, gather};
