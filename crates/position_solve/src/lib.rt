// The solves of positions and of velocities with work memory of their own: they ask for no more than the table and what takes the answer.

#![tactic(auto)]

pub mod solve; // solve.rt: the solve of either kind, of at most 512 rows and 256 bodies, and the entry of positions
pub mod velocity; // velocity.rt: the entry of velocities

pub use solve::{solve_position, solve_table};
pub use velocity::solve_velocity;
