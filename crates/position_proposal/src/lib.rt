// Propose, look, then commit, document 02, l: the position solve of one table up to its rows, which are only read. The commit is `proposals::commit_proposal`.

#![tactic(auto)]

pub mod propose; // propose.rt: the entry

pub use propose::propose_position;
