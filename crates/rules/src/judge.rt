// Refusals 3 (of the rules' lengths), 27 and 28: true where they do not apply.
ghost use Rattle.std.specs.Prelude.{◌≡◌, ◌+◌, ◌*◌, ◌≤◌, length};
ghost use Rattle.rules.specs.Rules.{rule_lengths_fit, rule_fits, passes27};
ghost use Rattle.rules.specs.Rows.{rules_in, rows_ruled};

use crate::search::one_rule;
use joint_refusals::tolerance_fits;

// At most 64, three words each.
pub fn rule_lengths_fit(words: usize, tolerances: usize) -> bool
    ensures { result ≡ rule_lengths_fit words tolerances }
{
    if 64 < tolerances {
        return false;
    }
    words == 3 * tolerances
}

fn rule_fits(words: &[u32], tolerances: &[f64], r: usize) -> bool
    requires { (r + 1 ≤ length tolerances.now) × (3 * length tolerances.now ≤ length words.now) }
    ensures { result ≡ rule_fits (rules_in words.now tolerances.now) r }
{
    let last = words[3 * r + 2];
    (words[3 * r + 1] <= last) & (words[3 * r] <= 1) & (last <= 255) & tolerance_fits(tolerances[r])
}

pub fn rules_fit(words: &[u32], tolerances: &[f64]) -> bool
    requires { 3 * length tolerances.now ≤ length words.now }
    ensures { result ≡ passes27 (rules_in words.now tolerances.now) }
{
    (0..tolerances.len()).all(|r| rule_fits(words, tolerances, r))
}

// Whether each of the first rows is under one rule and no second.
pub fn rows_ruled(
    row_words: &[u32],
    rule_words: &[u32],
    rule_tolerances: &[f64],
    rows: usize,
) -> bool
    requires { (8 * rows ≤ length row_words.now) × (3 * length rule_tolerances.now ≤ length rule_words.now) }
    ensures { result ≡ rows_ruled (rules_in rule_words.now rule_tolerances.now) row_words.now rows }
{
    (0..rows).all(|i| {
        let rule = one_rule(
            rule_words,
            rule_tolerances,
            row_words[8 * i + 1],
            row_words[8 * i],
        );
        rule < rule_tolerances.len()
    })
}
