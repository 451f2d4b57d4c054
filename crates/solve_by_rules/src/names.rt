// The number of the rule that each row was judged by.
ghost use Rattle.std.specs.Prelude.{◌≡◌, ◌*◌, ◌≤◌, length};
ghost use Rattle.refusals.specs.Told.{told};
ghost use Rattle.rules.specs.Rows.{rules_in, rule_in};
ghost use Rattle.solve_by_rules.specs.Ruled.{NamingRoom, NamingRuled, named_by};

use position_delivery::PositionPcgResult;
use refusals::Refusal;
use rules::{name_only_rules, name_rules};

// The rule of each row, where the answer is accepted.
pub fn name_accepted(
    answer: Result<PositionPcgResult, Refusal>,
    words: &[u32],
    rule_words: &[u32],
    rule_tolerances: &[f64],
    rule_numbers: &mut [u32],
)
    requires rule_tolerances_in_bounds { (3 * length rule_tolerances.now ≤ length rule_words.now) × (length rule_tolerances.now ≤ 64) }
    requires naming_room { NamingRoom (told answer) (length rule_numbers.old) (length words.now) }
    ensures { rule_numbers.new ≡ named_by (told answer) (rule_in (rules_in rule_words.now rule_tolerances.now) words.now) (length rule_numbers.old) rule_numbers.old }
{
    match answer {
        Ok(_) => {
            name_rules(words, rule_words, rule_tolerances, rule_numbers);
        }
        Err(_) => {}
    }
}

// The same where each row is known to be under one rule and no second.
pub fn name_ruled(
    answer: Result<PositionPcgResult, Refusal>,
    words: &[u32],
    rule_words: &[u32],
    rule_tolerances: &[f64],
    rule_numbers: &mut [u32],
)
    requires rule_tolerances_in_bounds { (3 * length rule_tolerances.now ≤ length rule_words.now) × (length rule_tolerances.now ≤ 64) }
    requires naming_ruled { NamingRuled (told answer) (rules_in rule_words.now rule_tolerances.now) words.now (length rule_numbers.old) }
    ensures { rule_numbers.new ≡ named_by (told answer) (rule_in (rules_in rule_words.now rule_tolerances.now) words.now) (length rule_numbers.old) rule_numbers.old }
{
    match answer {
        Ok(_) => {
            name_only_rules(words, rule_words, rule_tolerances, rule_numbers);
        }
        Err(_) => {}
    }
}
