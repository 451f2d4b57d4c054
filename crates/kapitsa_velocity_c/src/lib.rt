// The velocity solve and its closing check for C and Rust. A slice is a pointer, then its length; work memory is lent, of exactly the lengths that the counts call for.
// No function asks anything of its caller but what the types say: what does not fit is refused.

#![tactic(auto)]

pub mod closing_speeds; // closing_speeds.rt: the closing check of velocities
pub mod moving; // moving.rt: the velocity solve

pub use closing_speeds::kapitsa_velocity_closing_check;
pub use moving::kapitsa_solve_velocity;
