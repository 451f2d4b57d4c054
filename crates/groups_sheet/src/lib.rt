// What the groups program prints of a job file. Document 02, g: several mechanisms on one bench.

#![tactic(auto)]

pub mod bench; // bench.rt: the job read, its whole table judged, its rows grouped
pub mod group; // group.rt: a group's line, and the sheet of its rows alone
pub mod lines; // lines.rt: the lines that no other program prints
pub mod program; // program.rt: standard input to lines

pub use bench::read_bench;
pub use group::write_group;
pub use program::print_groups;
