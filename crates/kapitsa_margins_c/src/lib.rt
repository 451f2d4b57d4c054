// The closing checks that list their margins, for C and Rust. A slice is a pointer, then its length; work memory is lent, of exactly the lengths that the counts call for.
// No function asks anything of its caller but what the types say: what does not fit is refused.

#![tactic(auto)]

pub mod margins; // margins.rt: the closing checks with their lists

pub use margins::{kapitsa_closing_margins, kapitsa_velocity_closing_margins};
