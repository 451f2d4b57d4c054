// Reports for C and Rust of what a solve or a check was given: each row's measured number, and where a refusal arose. A slice is a pointer, then its length.
// No function asks anything of its caller but what the types say: what does not fit is refused.

#![tactic(auto)]

pub mod measuring; // measuring.rt: the closing checks that give each row's measured number
pub mod refusing; // refusing.rt: where a solve was turned back

pub use measuring::{kapitsa_closing_gaps, kapitsa_velocity_closing_gaps};
pub use refusing::kapitsa_first_refused;
