// The mass operator of pcg.rs: J M^-1 J^T on a vector, a row at a time, over a compact table of Jacobians.

#![tactic(auto)]

pub mod body_pair; // body_pair.rt: the numbers of two bodies, held over the rows on them
pub mod finite; // finite.rt: one test for a whole vector
pub mod impulse; // impulse.rt: the impulses of a vector of coefficients
pub mod product; // product.rt: responses, row values, and the operator

pub use finite::{NotFinite, all_finite};
pub use impulse::{add_generalized_impulse, global_velocity_impulse};
pub use product::global_velocity_matrix_vector;
