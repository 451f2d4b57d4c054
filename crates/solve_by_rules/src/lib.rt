// A solve of either kind by lent rules, up to its commit: refusal 3, the step that is counted, and what is proposed of it with refusal 17. The work memory is cleared by the parts that use it.

#![tactic(auto)]

pub mod lent; // lent.rt: refusal 3 of what is lent beside table and work memory
pub mod names; // names.rt: the rule of each row
pub mod propose; // propose.rt: what a solve proposes

pub use lent::{beside_lent, centres_lent, rules_lent};
pub use names::{name_accepted, name_ruled};
pub use propose::propose_by_rules;
