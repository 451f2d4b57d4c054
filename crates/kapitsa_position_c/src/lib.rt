// The port for C and Rust: the functions of kapitsa_c. A slice is a pointer, then its length; work memory is lent, of exactly the lengths that the counts call for.
// No function asks anything of its caller but what the types say: what does not fit is refused.
// What else C gets is in crates of their own, kapitsa_velocity_c and the others named so: in an archive where the solve has one caller, it is compiled into that caller and for its kind.
#![tactic(auto)]

pub mod closing; // closing.rt: the closing check
pub mod inverting; // inverting.rt: the inverse of a local inertia
pub mod solving; // solving.rt: the position solve

pub use closing::kapitsa_closing_check;
pub use inverting::kapitsa_inverse_spd;
pub use solving::kapitsa_solve_position;
