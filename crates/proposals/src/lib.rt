// A proposal of the position solve in lent memory, document 02, l: what is noted of it, and its commit. It stands in memory that the caller lends, so that a mark cannot be copied away.

#![tactic(auto)]

pub mod commit; // commit.rt: the commit, with refusals 3, 29 and 30
pub mod noting; // noting.rt: its words, and the multipliers it started from

pub use commit::commit_proposal;
pub use noting::note_accepted;
