// Sparse triangles in lent flat slices, and incomplete Cholesky factors on a pattern.

#![tactic(auto)]

pub mod cholesky; // cholesky.rt: factors and pivots
pub mod places; // places.rt: reading and writing one place, and the stretch of a row

pub use cholesky::{Unfit, factor, is_fit, pivot_root};
pub use places::{Stretch, earlier, number, put, row, write};
