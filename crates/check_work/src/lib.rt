// The closing check's lent work memory: the values and sizes of all rows, measured in it, and its clearing.

#![tactic(auto)]

pub mod clear; // clear.rt: +0.0 after a call
pub mod impulse; // impulse.rt: the bodies' impulses, of the list and of its sizes
pub mod response; // response.rt: the bodies' responses to both
pub mod rows; // rows.rt: values and sizes of all rows
pub mod value; // value.rt: the rows' values by both

pub use clear::clear_work;
pub use rows::measure_rows;
