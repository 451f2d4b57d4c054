// What a solve with work memory of its own refuses by 3, what it promises, and that its memory has room.

#![tactic(auto)]

pub mod fit; // fit.rt: refusal 3, of the counts, the mode and the lengths of the table

pub use fit::job_fits;
