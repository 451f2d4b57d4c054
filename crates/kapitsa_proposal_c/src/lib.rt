// The position solve in two steps for C and Rust. A slice is a pointer, then its length; work memory is lent, of exactly the lengths that the counts call for.
// No function asks anything of its caller but what the types say: what does not fit is refused.

#![tactic(auto)]

pub mod proposing; // proposing.rt: the proposal and its commit

pub use proposing::{kapitsa_commit_proposal, kapitsa_propose_position};
