// The rule of a row where the rules are one tolerance for each dimension, as of most jobs: no rule is looked for then.
ghost use Rattle.std.specs.Prelude.{◌≡◌, ◌*◌, ◌<◌, ◌≤◌, length};
ghost use Rattle.rules.specs.Rules.{rule_for};
ghost use Rattle.rules.specs.Rows.{rules_in};
ghost use Rattle.rules.specs.Plain.{spans_keys, plain_rules};

use crate::search::{one_rule, only_rule};
use loops::wide;

fn spans_keys(words: &[u32], tolerances: &[f64], dimension: u32) -> bool
    requires { (dimension < length tolerances.now) × (3 * length tolerances.now ≤ length words.now) }
    ensures { result ≡ spans_keys (rules_in words.now tolerances.now) dimension }
{
    let d = dimension as usize;
    (words[3 * d] == dimension) & (words[3 * d + 1] == 0) & (words[3 * d + 2] == 255)
}

// Asked once a call: two rules over all keys, the linear rows' first.
pub fn rules_plain(words: &[u32], tolerances: &[f64]) -> bool
    requires { 3 * length tolerances.now ≤ length words.now }
    ensures { result ≡ plain_rules (rules_in words.now tolerances.now) }
{
    if tolerances.len() != 2 {
        return false;
    }
    spans_keys(words, tolerances, 0) & spans_keys(words, tolerances, 1)
}

// The one rule of a row whose key and dimension 4 lets pass.
pub fn one_rule_of(
    plain: bool,
    words: &[u32],
    tolerances: &[f64],
    dimension: u32,
    key: u32,
) -> usize
    requires tolerances_in_bounds { 3 * length tolerances.now ≤ length words.now }
    requires plain_value { plain ≡ plain_rules (rules_in words.now tolerances.now) }
    requires key_bound { (key ≤ 255) × (dimension ≤ 1) }
    ensures { result ≡ rule_for (rules_in words.now tolerances.now) dimension key }
{
    if plain {
        return wide(dimension);
    }
    one_rule(words, tolerances, dimension, key)
}

// The same of a row that 28 lets pass.
pub fn only_rule_of(
    plain: bool,
    words: &[u32],
    tolerances: &[f64],
    dimension: u32,
    key: u32,
) -> usize
    requires tolerances_in_bounds { 3 * length tolerances.now ≤ length words.now }
    requires plain_value { plain ≡ plain_rules (rules_in words.now tolerances.now) }
    requires key_in_bounds { rule_for (rules_in words.now tolerances.now) dimension key < length tolerances.now }
    ensures { result ≡ rule_for (rules_in words.now tolerances.now) dimension key }
{
    if plain {
        return wide(dimension);
    }
    only_rule(words, tolerances, dimension, key)
}
