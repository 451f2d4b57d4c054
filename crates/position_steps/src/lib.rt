// The steps of a solve, of positions or velocities: what is judged before step 0, step 0, and on to the step that is counted.

#![tactic(auto)]

pub mod counting; // counting.rt: prepare, the count 0 test, and the steps
pub mod running; // running.rt: factor, first direction and loop
pub mod beginning; // beginning.rt: step 0
pub mod opening; // opening.rt: what is judged before step 0
pub mod ready; // ready.rt: what is judged of a row before step 0, at once

pub use counting::count_steps;
pub use opening::open_table;
