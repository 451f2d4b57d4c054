// One group of a table: its rows picked, solved alone, and what the solve delivers put back. Document 02, g.

#![tactic(auto)]

pub mod deliver; // deliver.rt: what an accepted group delivers, into the whole table
pub mod own; // own.rt: the group's rows picked and solved alone
pub mod step; // step.rt: all of it
pub mod tell; // tell.rt: the group's answer, in three words and two numbers

pub use step::solve_group;
