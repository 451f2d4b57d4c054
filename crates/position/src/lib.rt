// The parts of the position solve beside its recurrence: step 0 with refusals 7 to 9, what is told of a residual, and what is delivered.

#![tactic(auto)]

pub mod centre; // centre.rt: the centres after the impulses
pub mod multiplier; // multiplier.rt: the accumulated multipliers gain the solution
pub mod prepare; // prepare.rt: diagonal and residual of step 0, with refusals 7 to 9
pub mod residual; // residual.rt: tolerance and maxima
pub mod start; // start.rt: the starting residual

pub use centre::{move_centres, moved_finite};
pub use multiplier::{add_multipliers, multipliers_finite};
pub use prepare::begin;
pub use residual::{position_vector_converged, residual_maxima};
pub use start::start_residual;
