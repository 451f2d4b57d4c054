// Block Jacobi: a dense factor for each run of rows with one owner, in lent memory, and the solves with all of them.

#![tactic(auto)]

pub mod apply; // apply.rt: the solves, each on its own stretch of the output
pub mod build; // build.rt: the factors, with refusals 11 to 13
pub mod run; // run.rt: runs of rows with one owner
pub mod store; // store.rt: a block in lent memory

pub use apply::apply_block_jacobi_preconditioner;
pub use build::build_block_jacobi_preconditioner;
