// The packed form of the recorded solves (oracle/README.md): words, and groups of records of them. Where the list ends, zeros go on, so that a malformed list is read like any other.

#![tactic(auto)]

pub mod packed; // packed.rt: records and groups
pub mod words; // words.rt: one word

pub use packed::unpack;
pub use words::{half, word};
