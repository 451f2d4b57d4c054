// Document 02 c: the inverse of a link's 3 by 3 local inertia, in the operation order of Kapitsa's matrix.rs and solver_mass.rs.

#![tactic(auto)]

pub mod divided; // divided.rt: the scale, the divided numbers, and whether they are symmetric
pub mod factor; // factor.rt: factor_spd
pub mod inverse; // inverse.rt: inverse_spd
pub mod lent; // lent.rt: a matrix in nine lent doubles, and the inverse of one
pub mod substitution; // substitution.rt: Cholesky3::solve, forward and backward
pub mod triangle; // triangle.rt: Cholesky3 and its errors, and the triangle row by row

pub use factor::factor_spd;
pub use inverse::inverse_spd;
pub use lent::{inverse_in, mat_at, put_mat};
pub use substitution::solve;
pub use triangle::{Cholesky3, CholeskyError};
