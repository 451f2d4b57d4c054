// One job of the recorded lists (oracle/README.md has their form): unpacked, solved, and the port's answer beside the recorded one.

#![tactic(auto)]

pub mod answer; // answer.rt: the answer beside the recorded one
pub mod compare; // compare.rt: number by number
pub mod header; // header.rt: the first 64 bytes of a job
pub mod replay; // replay.rt: a job, read and solved
pub mod room; // room.rt: memory for the largest job
pub mod table; // table.rt: its rows, masses, and centres or residual

pub use answer::Seen;
pub use replay::job_seen;
