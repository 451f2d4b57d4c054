// The rule of each row, and its tolerance: the steps read this list and not the rows' words.
ghost use Rattle.std.specs.Prelude.{◌≡◌, true, ◌+◌, ◌*◌, ◌<◌, ◌≤◌, length};
ghost use Rattle.loops.specs.Tabulate.{tabulate};
ghost use Rattle.rules.specs.Rows.{rules_in, rule_in, tolerance_in, rows_ruled};
ghost use Rattle.rules.specs.Plain.{plain_rules};

use crate::plain::{only_rule_of, rules_plain};
use crate::search::{one_rule, only_rule};

pub fn row_tolerance(
    row_words: &[u32],
    rule_words: &[u32],
    rule_tolerances: &[f64],
    i: usize,
) -> f64
    requires i_in_bounds { (8 * i + 8 ≤ length row_words.now) × (3 * length rule_tolerances.now ≤ length rule_words.now) }
    requires i_in_bounds_2 { rule_in (rules_in rule_words.now rule_tolerances.now) row_words.now i < length rule_tolerances.now }
    ensures { result ≡ tolerance_in (rules_in rule_words.now rule_tolerances.now) row_words.now i }
{
    let r = only_rule(
        rule_words,
        rule_tolerances,
        row_words[8 * i + 1],
        row_words[8 * i],
    );
    rule_tolerances[r]
}

// The same once it is known whether the rules are plain.
fn ruled_tolerance(
    plain: bool,
    row_words: &[u32],
    rule_words: &[u32],
    rule_tolerances: &[f64],
    i: usize,
) -> f64
    requires i_in_bounds { (8 * i + 8 ≤ length row_words.now) × (3 * length rule_tolerances.now ≤ length rule_words.now) }
    requires plain_value { plain ≡ plain_rules (rules_in rule_words.now rule_tolerances.now) }
    requires i_in_bounds_2 { rule_in (rules_in rule_words.now rule_tolerances.now) row_words.now i < length rule_tolerances.now }
    ensures { result ≡ tolerance_in (rules_in rule_words.now rule_tolerances.now) row_words.now i }
{
    let r = only_rule_of(
        plain,
        rule_words,
        rule_tolerances,
        row_words[8 * i + 1],
        row_words[8 * i],
    );
    rule_tolerances[r]
}

// Where each row is under one rule and no second.
pub fn gather_tolerances(
    row_words: &[u32],
    rule_words: &[u32],
    rule_tolerances: &[f64],
    tolerances: &mut [f64],
)
    requires tolerances_in_bounds { (8 * length tolerances.old ≤ length row_words.now) × (3 * length rule_tolerances.now ≤ length rule_words.now) }
    requires tolerances_value { rows_ruled (rules_in rule_words.now rule_tolerances.now) row_words.now (length tolerances.old) ≡ true }
    ensures { tolerances.new ≡ tabulate (tolerance_in (rules_in rule_words.now rule_tolerances.now) row_words.now) (length tolerances.old) }
{
    let plain = rules_plain(rule_words, rule_tolerances);
    for i in 0..tolerances.len() {
        tolerances[i] = ruled_tolerance(plain, row_words, rule_words, rule_tolerances, i);
    }
}

pub fn name_rules(
    row_words: &[u32],
    rule_words: &[u32],
    rule_tolerances: &[f64],
    rule_numbers: &mut [u32],
)
    requires { (8 * length rule_numbers.old ≤ length row_words.now) × (3 * length rule_tolerances.now ≤ length rule_words.now) × (length rule_tolerances.now ≤ 64) }
    ensures { rule_numbers.new ≡ tabulate (rule_in (rules_in rule_words.now rule_tolerances.now) row_words.now) (length rule_numbers.old) }
{
    for i in 0..rule_numbers.len() {
        let r = one_rule(
            rule_words,
            rule_tolerances,
            row_words[8 * i + 1],
            row_words[8 * i],
        );
        rule_numbers[i] = r as u32;
    }
}

fn ruled_number(
    plain: bool,
    row_words: &[u32],
    rule_words: &[u32],
    rule_tolerances: &[f64],
    i: usize,
) -> u32
    requires i_in_bounds { (8 * i + 8 ≤ length row_words.now) × (3 * length rule_tolerances.now ≤ length rule_words.now) × (length rule_tolerances.now ≤ 64) }
    requires plain_value { plain ≡ plain_rules (rules_in rule_words.now rule_tolerances.now) }
    requires i_in_bounds_2 { rule_in (rules_in rule_words.now rule_tolerances.now) row_words.now i < length rule_tolerances.now }
    ensures { result ≡ rule_in (rules_in rule_words.now rule_tolerances.now) row_words.now i }
{
    let r = only_rule_of(
        plain,
        rule_words,
        rule_tolerances,
        row_words[8 * i + 1],
        row_words[8 * i],
    );
    r as u32
}

// The same where each row is under one rule and no second.
pub fn name_only_rules(
    row_words: &[u32],
    rule_words: &[u32],
    rule_tolerances: &[f64],
    rule_numbers: &mut [u32],
)
    requires rule_numbers_in_bounds { (8 * length rule_numbers.old ≤ length row_words.now) × (3 * length rule_tolerances.now ≤ length rule_words.now) × (length rule_tolerances.now ≤ 64) }
    requires rule_numbers_value { rows_ruled (rules_in rule_words.now rule_tolerances.now) row_words.now (length rule_numbers.old) ≡ true }
    ensures { rule_numbers.new ≡ tabulate (rule_in (rules_in rule_words.now rule_tolerances.now) row_words.now) (length rule_numbers.old) }
{
    let plain = rules_plain(rule_words, rule_tolerances);
    for i in 0..rule_numbers.len() {
        rule_numbers[i] = ruled_number(plain, row_words, rule_words, rule_tolerances, i);
    }
}
