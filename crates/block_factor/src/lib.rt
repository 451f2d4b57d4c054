// One block of the block Jacobi preconditioner: the numbers of its dense factor, and its solves.

#![tactic(auto)]

pub mod block; // block.rt: a number of the factor, with refusals 11 to 13
pub mod stretch; // stretch.rt: the solves on the stretch of one block

pub use block::cell_at;
pub use stretch::solve_block;
