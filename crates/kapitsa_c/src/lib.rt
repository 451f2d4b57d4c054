// The functions for C that crates call too, and how an answer is told to C. A crate is a library or an archive for C, not both: kapitsa_position_c exports these, by their names and with their contracts.
// A slice is a pointer, then its length; work memory is lent, of exactly the lengths that the counts call for.
// No function asks anything of its caller but what the types say: what does not fit is refused.

#![tactic(auto)]

pub mod closing; // closing.rt: the closing check
pub mod inverting; // inverting.rt: the inverse of a local inertia
pub mod solving; // solving.rt: the position solve

pub use closing::kapitsa_closing_check;
pub use inverting::kapitsa_inverse_spd;
pub use solving::kapitsa_solve_position;
