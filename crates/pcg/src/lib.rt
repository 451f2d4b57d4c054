// The solves over lent tables: what is proposed is committed, and each row's rule named.

#![tactic(auto)]

pub mod prepared; // prepared.rt: of either kind, and the entry of positions
pub mod velocity; // velocity.rt: the entry of velocities

pub use prepared::{solve_position_pcg_prepared, solve_prepared};
pub use velocity::solve_velocity_pcg_prepared;
