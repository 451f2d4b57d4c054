// Refusals 4, 27, 28, 6, of velocities 20, 7 and 18, in this order.
ghost use Rattle.std.specs.Prelude.{◌≡◌, ◌*◌, ◌≤◌, length};
ghost use Rattle.loops.specs.Judge.{judge};
ghost use Rattle.refusals.specs.Told.{told};
ghost use Rattle.kapitsa_joint.specs.Table.{table_of};
ghost use Rattle.mass_operator.specs.Flat.{coefficients};
ghost use Rattle.rules.specs.Rows.{rules_in};
ghost use Rattle.check_range.specs.Closing.{closing_for, given_finite, GivenFrom};
ghost use Rattle.check_refusals.specs.Judged.{table_tests};

use crate::sound::rows_sound;
use check_range::{masses_in_range, table_in_range};
use joint_refusals::{masses_finite, residuals_finite, rows_valid, words_fit};
use kapitsa_joint::Kind;
use refusals::Refusal;
use rules::{rows_ruled, rules_fit};

// 20, of velocities alone.
fn given_finite(kind: Kind, given: &[f64], rows: usize) -> bool
    requires { GivenFrom kind (length given.now) rows }
    ensures { result ≡ given_finite kind (coefficients given.now) rows }
{
    match kind {
        Kind::Position => true,
        Kind::Velocity => residuals_finite(given, rows),
    }
}

// One after the other, for the number of the first that fails.
fn judge_in_order(
    kind: Kind,
    rows: u32,
    bodies: u32,
    numbers: &[f64],
    words: &[u32],
    masses: &[f64],
    given: &[f64],
    multipliers: &[f64],
    rule_words: &[u32],
    rule_tolerances: &[f64],
    placed: bool,
) -> Result<(), Refusal>
    requires { (27 * rows ≤ length numbers.now) × (8 * rows ≤ length words.now) × (10 * bodies ≤ length masses.now) × (rows ≤ length multipliers.now) × (3 * length rule_tolerances.now ≤ length rule_words.now) × GivenFrom kind (length given.now) rows }
    ensures { judge (table_tests (closing_for kind (table_of rows bodies numbers.now words.now masses.now) (coefficients multipliers.now) (rules_in rule_words.now rule_tolerances.now) (coefficients given.now) placed)) ≡ told result }
{
    let n = rows as usize;
    let b = bodies as usize;
    if !words_fit(words, n) {
        return Err(Refusal::Word);
    }
    if !rules_fit(rule_words, rule_tolerances) {
        return Err(Refusal::Rule);
    }
    if !rows_ruled(words, rule_words, rule_tolerances, n) {
        return Err(Refusal::RulesOfRow);
    }
    if !(masses_finite(masses, b) & placed) {
        return Err(Refusal::Mass);
    }
    if !given_finite(kind, given, n) {
        return Err(Refusal::Speed);
    }
    if !rows_valid(numbers, words, n, bodies) {
        return Err(Refusal::Row);
    }
    if !table_in_range(kind, numbers, words, masses, given, multipliers, n, b) {
        return Err(Refusal::Range);
    }
    Ok(())
}

// The residual is looked at for velocities alone; `placed` tells whether the centres are finite.
// First all at once: the order matters only where one fails.
pub fn judge_table(
    kind: Kind,
    rows: u32,
    bodies: u32,
    numbers: &[f64],
    words: &[u32],
    masses: &[f64],
    given: &[f64],
    multipliers: &[f64],
    rule_words: &[u32],
    rule_tolerances: &[f64],
    placed: bool,
) -> Result<(), Refusal>
    requires { (27 * rows ≤ length numbers.now) × (8 * rows ≤ length words.now) × (10 * bodies ≤ length masses.now) × (rows ≤ length multipliers.now) × (3 * length rule_tolerances.now ≤ length rule_words.now) × GivenFrom kind (length given.now) rows }
    ensures { judge (table_tests (closing_for kind (table_of rows bodies numbers.now words.now masses.now) (coefficients multipliers.now) (rules_in rule_words.now rule_tolerances.now) (coefficients given.now) placed)) ≡ told result }
{
    let n = rows as usize;
    let b = bodies as usize;
    let ruled = rules_fit(rule_words, rule_tolerances)
        & rows_ruled(words, rule_words, rule_tolerances, n);
    let sound = masses_in_range(masses, b)
        & rows_sound(kind, numbers, words, given, multipliers, n, bodies);
    if ruled & placed & given_finite(kind, given, n) & sound {
        return Ok(());
    }
    judge_in_order(
        kind,
        rows,
        bodies,
        numbers,
        words,
        masses,
        given,
        multipliers,
        rule_words,
        rule_tolerances,
        placed,
    )
}
