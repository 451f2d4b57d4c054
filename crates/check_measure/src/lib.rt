// A joint's measured gap, in doubles and without rounding: what the closing check of document 01 weighs against a tolerance.

#![tactic(auto)]

pub mod largest; // largest.rt: the largest reach of each dimension
pub mod measure; // measure.rt: each row's reach, the rounded |r| + E
pub mod size; // size.rt: the size of a row and of a mass
pub mod verdict; // verdict.rt: each reach against its tolerance

pub use largest::largest_reaches;
pub use measure::measure_reaches;
pub use size::{mass_size, row_size};
pub use verdict::rows_close;
