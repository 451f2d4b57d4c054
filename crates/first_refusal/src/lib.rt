// Which row is refused: of a solve that was turned back, the first row, body or rule that fails the test of the refusal's number.

#![tactic(auto)]

pub mod first; // first.rt: the first that fails, and the entry point
pub mod place; // place.rt: the answer
pub mod run; // run.rt: refusal 11, of a run of rows with one owner
pub mod step; // step.rt: refusals 7 to 9, of one row
pub mod tests; // tests.rt: the test of each number

pub use first::first_refused;
pub use place::Place;
