// The rows of one group: picked out of a table, and put back; and rows that bear a mark, copied.

#![tactic(auto)]

pub mod copy; // copy.rt: one row, and rows that bear a mark
pub mod pick; // pick.rt: the rows of one group as a table of their own
pub mod put; // put.rt: a table of one group's rows, back into the whole

pub use copy::copy_marked;
pub use pick::{count_rows, pick_rows};
pub use put::put_rows;
