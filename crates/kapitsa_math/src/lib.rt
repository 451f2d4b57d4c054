// Vectors and matrices in three dimensions, in the operation order of Kapitsa's vector.rs and matrix.rs.

#![tactic(auto)]

pub mod lent; // lent.rt: a vector in a lent slice
pub mod matrix; // matrix.rt: Mat3
pub mod scalar; // scalar.rt: a number, where it is finite
pub mod vector; // vector.rt: Vec3

pub use lent::{put_spread, put_vec, spread_at, vec_at};
pub use matrix::Mat3;
pub use scalar::checked_value;
pub use vector::Vec3;
