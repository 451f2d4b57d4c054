// 4, 5 and 28 of a row in one look at it: nearly always all pass.
ghost use Rattle.std.specs.Prelude.{◌≡◌, ◌+◌, ◌*◌, ◌≤◌, length};
ghost use Rattle.loops.specs.Every.{every};
ghost use Rattle.kapitsa_joint.specs.Kind.{by_kind};
ghost use Rattle.joint_refusals.specs.Refusals.{opens_of, velocity_opens_of};
ghost use Rattle.rules.specs.Rows.{rules_in};
ghost use Rattle.rules.specs.Plain.{plain_rules};
ghost use Rattle.position_steps.specs.Ready.{row_ready};

use joint_refusals::{row_opens, row_words_fit, velocity_row_opens};
use kapitsa_joint::{Kind, RowScalars, RowWords, scalars_at, words_at};
use rules::{one_rule_of, rules_plain};

fn opens_by_kind(kind: Kind, s: RowScalars, w: RowWords) -> bool
    ensures { result ≡ by_kind kind (opens_of s w) (velocity_opens_of s w) }
{
    match kind {
        Kind::Position => row_opens(s, w),
        Kind::Velocity => velocity_row_opens(s, w),
    }
}

// The search comes last: the other tests have no loop.
fn row_ready_at(
    kind: Kind,
    plain: bool,
    numbers: &[f64],
    words: &[u32],
    rule_words: &[u32],
    rule_tolerances: &[f64],
    i: usize,
) -> bool
    requires i_in_bounds { (27 * i + 27 ≤ length numbers.now) × (8 * i + 8 ≤ length words.now) × (3 * length rule_tolerances.now ≤ length rule_words.now) }
    requires plain_value { plain ≡ plain_rules (rules_in rule_words.now rule_tolerances.now) }
    ensures { result ≡ row_ready kind (rules_in rule_words.now rule_tolerances.now) numbers.now words.now i }
{
    let w = words_at(words, 8 * i);
    let s = scalars_at(numbers, 27 * i + 15);
    if !(row_words_fit(w) & opens_by_kind(kind, s, w)) {
        return false;
    }
    one_rule_of(plain, rule_words, rule_tolerances, w.dimension, w.key) < rule_tolerances.len()
}

pub fn rows_ready(
    kind: Kind,
    numbers: &[f64],
    words: &[u32],
    rule_words: &[u32],
    rule_tolerances: &[f64],
    rows: usize,
) -> bool
    requires { (27 * rows ≤ length numbers.now) × (8 * rows ≤ length words.now) × (3 * length rule_tolerances.now ≤ length rule_words.now) }
    ensures { result ≡ every (row_ready kind (rules_in rule_words.now rule_tolerances.now) numbers.now words.now) rows }
{
    let plain = rules_plain(rule_words, rule_tolerances);
    (0..rows).all(|i| row_ready_at(kind, plain, numbers, words, rule_words, rule_tolerances, i))
}
