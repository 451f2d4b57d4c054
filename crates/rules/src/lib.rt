// Tolerances by kind of joint: a table of rules, and the one that each row is judged by. Document 02, k.

#![tactic(auto)]

pub mod judge; // judge.rt: refusals 27 and 28
pub mod plain; // plain.rt: the rule of a row where there is one tolerance for each dimension
pub mod rows; // rows.rt: the rule and the tolerance of each row
pub mod search; // search.rt: the one rule that applies

pub use judge::{rows_ruled, rule_lengths_fit, rules_fit};
pub use plain::{one_rule_of, rules_plain};
pub use rows::{gather_tolerances, name_only_rules, name_rules, row_tolerance};
pub use search::one_rule;
