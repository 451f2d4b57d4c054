// The test of each number, at one row, body or rule: true where the refusal does not apply to it.
ghost use Rattle.std.specs.Prelude.{◌≡◌, true, ◌&&◌, ◌+◌, ◌*◌, ◌<◌, ◌≤◌, length};
ghost use Rattle.kapitsa_math.specs.Lent.{vec_of};
ghost use Rattle.kapitsa_math.specs.Vector.{is_finite_of};
ghost use Rattle.kapitsa_joint.specs.Kind.{by_kind};
ghost use Rattle.kapitsa_joint.specs.Row.{scalars_of, words_of};
ghost use Rattle.kapitsa_joint.specs.Mass.{mass_of};
ghost use Rattle.joint_refusals.specs.Refusals.{opens_of, velocity_opens_of, mass_finite_of};
ghost use Rattle.rules.specs.Rules.{rule_fits};
ghost use Rattle.rules.specs.Rows.{rules_in};
ghost use Rattle.first_refusal.specs.Place.{passes_at, count_of};
ghost use Rattle.first_refusal.specs.Room.{tables_fit, CentresFrom};

use crate::run::run_fits;
use crate::step::row_refusal;
use joint_refusals::judge::{mass_finite, row_opens, row_words_fit, velocity_row_opens};
use kapitsa_joint::{Kind, mass_at, scalars_at, words_at};
use kapitsa_math::vec_at;
use rules::{one_rule, rules_fit};

// 5, of row i.
fn opens_at(kind: Kind, numbers: &[f64], words: &[u32], i: usize) -> bool
    requires { (27 * i + 27 ≤ length numbers.now) × (8 * i + 8 ≤ length words.now) }
    ensures { result ≡ by_kind kind (opens_of (scalars_of numbers.now (27 * i + 15)) (words_of words.now (8 * i))) (velocity_opens_of (scalars_of numbers.now (27 * i + 15)) (words_of words.now (8 * i))) }
{
    let scalars = scalars_at(numbers, 27 * i + 15);
    let row = words_at(words, 8 * i);
    match kind {
        Kind::Position => row_opens(scalars, row),
        Kind::Velocity => velocity_row_opens(scalars, row),
    }
}

// 6, of body b and, of positions, its centre.
fn body_fits(kind: Kind, masses: &[f64], beside: &[f64], b: usize) -> bool
    requires { (10 * b + 10 ≤ length masses.now) × CentresFrom kind (length beside.now) (b + 1) }
    ensures { result ≡ (mass_finite_of (mass_of masses.now b) && by_kind kind (is_finite_of (vec_of beside.now (3 * b))) true) }
{
    let mass = mass_finite(mass_at(masses, b));
    match kind {
        Kind::Position => {
            let centre = vec_at(beside, 3 * b);
            mass & centre.is_finite()
        }
        Kind::Velocity => mass,
    }
}

// 27, of rule r, judged alone.
fn rule_fits(rule_words: &[u32], rule_tolerances: &[f64], r: usize) -> bool
    requires { (r < length rule_tolerances.now) × (3 * length rule_tolerances.now ≤ length rule_words.now) }
    ensures { result ≡ rule_fits (rules_in rule_words.now rule_tolerances.now) r }
{
    let at = 3 * r;
    rules_fit(&rule_words[at..at + 3], &rule_tolerances[r..r + 1])
}

// Whether row, body or rule i passes the test of this number.
pub fn passes_at(
    kind: Kind,
    number: u32,
    rows: u32,
    bodies: u32,
    numbers: &[f64],
    words: &[u32],
    masses: &[f64],
    beside: &[f64],
    rule_words: &[u32],
    rule_tolerances: &[f64],
    i: usize,
) -> bool
    requires rule_tolerances_value { tables_fit kind rows bodies numbers.now words.now masses.now beside.now (rules_in rule_words.now rule_tolerances.now) ≡ true }
    requires i_bound { i < count_of kind rows bodies numbers.now words.now masses.now beside.now (rules_in rule_words.now rule_tolerances.now) number }
    ensures { result ≡ passes_at kind rows bodies numbers.now words.now masses.now beside.now (rules_in rule_words.now rule_tolerances.now) number i }
{
    if number == 4 {
        return row_words_fit(words_at(words, 8 * i));
    }
    if number == 5 {
        return opens_at(kind, numbers, words, i);
    }
    if number == 6 {
        return body_fits(kind, masses, beside, i);
    }
    if number == 11 {
        return run_fits(words, rows as usize, i);
    }
    if number == 27 {
        return rule_fits(rule_words, rule_tolerances, i);
    }
    if number == 28 {
        let r = one_rule(rule_words, rule_tolerances, words[8 * i + 1], words[8 * i]);
        return r < rule_tolerances.len();
    }
    if !((7 <= number) & (number <= 9)) {
        return true;
    }
    let refusal = row_refusal(
        kind,
        rows as usize,
        bodies,
        numbers,
        words,
        masses,
        beside,
        rule_words,
        rule_tolerances,
        i,
    );
    refusal != number
}
