// The verdict: each row's reach against its tolerance.
ghost use Rattle.std.specs.Prelude.{◌≡◌, true, ◌+◌, ◌*◌, ◌<◌, ◌≤◌, length};
ghost use Rattle.loops.specs.Every.{every};
ghost use Rattle.rules.specs.Rows.{rules_in, rule_in, rows_ruled};
ghost use Rattle.check_measure.specs.Rows.{within_in};

use rules::row_tolerance;

#[tactic(auto, unfolding(crate::specs::Rows::within_in))]
fn row_within(
    words: &[u32],
    reaches: &[f64],
    rule_words: &[u32],
    rule_tolerances: &[f64],
    i: usize,
) -> bool
    requires i_in_bounds { (8 * i + 8 ≤ length words.now) × (i + 1 ≤ length reaches.now) × (3 * length rule_tolerances.now ≤ length rule_words.now) }
    requires i_in_bounds_2 { rule_in (rules_in rule_words.now rule_tolerances.now) words.now i < length rule_tolerances.now }
    ensures { result ≡ within_in words.now reaches.now (rules_in rule_words.now rule_tolerances.now) i }
{
    reaches[i] <= row_tolerance(words, rule_words, rule_tolerances, i)
}

// Where each row is under one rule and no second.
pub fn rows_close(
    words: &[u32],
    reaches: &[f64],
    rule_words: &[u32],
    rule_tolerances: &[f64],
    rows: usize,
) -> bool
    requires rows_in_bounds { (8 * rows ≤ length words.now) × (rows ≤ length reaches.now) × (3 * length rule_tolerances.now ≤ length rule_words.now) }
    requires rows_value { rows_ruled (rules_in rule_words.now rule_tolerances.now) words.now rows ≡ true }
    ensures { result ≡ every (within_in words.now reaches.now (rules_in rule_words.now rule_tolerances.now)) rows }
{
    (0..rows).all(|i| row_within(words, reaches, rule_words, rule_tolerances, i))
}
