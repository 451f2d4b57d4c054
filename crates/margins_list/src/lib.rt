// The list of document 02, m: rows by dimension, in each from the largest number to the smallest, equals by row, and beside each row its number.

#![tactic(auto)]

pub mod list; // list.rt: the rows in their order, each beside its number
pub mod order; // order.rt: which of two rows stands first

pub use list::list_margins;
