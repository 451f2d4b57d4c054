// The recurrence of preconditioned conjugate gradients over lent vectors: it knows residuals, a factor and the operator, and nothing of positions.

#![tactic(auto, unfolding(crate::specs::Step::alpha_of, crate::specs::Step::product_fit, crate::specs::Step::beta_of, crate::specs::Step::turned_of, crate::specs::Parts::moved_of, loops::specs::Judge::test, loops::specs::Run::on, loops::specs::Run::check))]

pub mod diagonal; // diagonal.rt: a step of mode 0, with z and s
pub mod direction; // direction.rt: z, s and direction, at first and anew
pub mod length; // length.rt: how far a step goes
pub mod ratio; // ratio.rt: alpha, s and beta, with refusals 14, 15 and 16
pub mod step; // step.rt: a step's solution and residual
pub mod vector; // vector.rt: dot product and updates

pub use diagonal::advance_diagonal;
pub use direction::{first, next_direction, renew};
pub use length::step_length;
pub use step::advance;
pub use vector::dot_product;
