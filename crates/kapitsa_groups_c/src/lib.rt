// The solves by groups for C and Rust. A slice is a pointer, then its length.
// No function asks anything of its caller but what the types say: what does not fit is refused.

#![tactic(auto)]

pub mod benches; // benches.rt: the solve by groups, of positions and of velocities

pub use benches::{kapitsa_solve_groups, kapitsa_solve_velocity_groups};
