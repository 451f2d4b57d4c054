// The preconditioners of pcg.rs by mode: the diagonal, the incomplete Cholesky factor and the blocks, built once and solved at every step.

#![tactic(auto)]

pub mod apply; // apply.rt: z from the residual
pub mod mode; // mode.rt: the three modes
pub mod owner; // owner.rt: the joint of each row, for the blocks
pub mod prepare; // prepare.rt: the mode's factor, with refusals 10 to 13
pub mod room; // room.rt: how long its memory is
pub mod shift; // shift.rt: the shift of mode 1's pivots, and refusal 25

pub use apply::{Preconditioner, apply_preconditioner};
pub use mode::{Mode, mode_of};
pub use prepare::build_preconditioner;
pub use room::{order_room, pattern_room, values_room};
pub use shift::shift_fits;
