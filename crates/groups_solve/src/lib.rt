// The solve by groups: several mechanisms on one bench, each answered as a table of its rows alone. Document 02, g.

#![tactic(auto)]

pub mod bench; // bench.rt: the groups numbered, and each of them solved
pub mod judge; // judge.rt: what is judged of the whole table
pub mod solve; // solve.rt: the entries

pub use solve::{solve_groups, solve_position_groups, solve_velocity_groups};
