// Refusals 25, 4, 27, 28, 5, 6 and, of velocities, 20, before step 0.
ghost use Rattle.std.specs.Prelude.{◌≡◌, true, ◌*◌, ◌≤◌, length};
ghost use Rattle.loops.specs.Judge.{judge};
ghost use Rattle.loops.specs.Run.{going};
ghost use Rattle.refusals.specs.Told.{told};
ghost use Rattle.position.specs.Kinds.{GivenRoom};
ghost use Rattle.rules.specs.Rows.{rules_in};
ghost use Rattle.solve_method.specs.Method.{passes5, after_three};
ghost use Rattle.solve_method.specs.Position.{steps_for};
ghost use Rattle.position_steps.specs.Opening.{opens_in, given_fits};

use crate::ready::rows_ready;
use joint_refusals::{masses_finite, residuals_finite, rows_open, velocity_rows_open, words_fit};
use kapitsa_joint::Kind;
use loops::wide;
use preconditioner::shift_fits;
use refusals::Refusal;
use rules::{rows_ruled, rules_fit};

// 5: no rows open nothing.
fn opens(kind: Kind, numbers: &[f64], words: &[u32], rows: u32, limit: u32) -> bool
    requires { (27 * rows ≤ length numbers.now) × (8 * rows ≤ length words.now) }
    ensures { result ≡ passes5 rows (opens_in kind numbers.now words.now) limit }
{
    if rows == 0 {
        return true;
    }
    if limit == 0 {
        return false;
    }
    match kind {
        Kind::Position => rows_open(numbers, words, wide(rows)),
        Kind::Velocity => velocity_rows_open(numbers, words, wide(rows)),
    }
}

// 20, of velocities alone.
fn given_fits(kind: Kind, given: &[f64], rows: u32) -> bool
    requires { GivenRoom kind (length given.now) rows }
    ensures { result ≡ given_fits kind given.now rows }
{
    match kind {
        Kind::Position => true,
        Kind::Velocity => residuals_finite(given, wide(rows)),
    }
}

// One after the other, for the number of the first that fails.
fn open_in_order(
    kind: Kind,
    numbers: &[f64],
    words: &[u32],
    masses: &[f64],
    rows: u32,
    bodies: u32,
    rule_words: &[u32],
    rule_tolerances: &[f64],
    given: &[f64],
    limit: u32,
    shift: f64,
    placed: bool,
) -> Result<(), Refusal>
    requires rows_in_bounds { (27 * rows ≤ length numbers.now) × (8 * rows ≤ length words.now) × (10 * bodies ≤ length masses.now) × (3 * length rule_tolerances.now ≤ length rule_words.now) }
    requires given_room { GivenRoom kind (length given.now) rows }
    ensures { judge (after_three (steps_for kind rows bodies numbers.now words.now masses.now given.now (rules_in rule_words.now rule_tolerances.now) shift placed) limit) ≡ told result }
{
    if !shift_fits(shift) {
        return Err(Refusal::Shift);
    }
    if !words_fit(words, wide(rows)) {
        return Err(Refusal::Word);
    }
    if !rules_fit(rule_words, rule_tolerances) {
        return Err(Refusal::Rule);
    }
    if !rows_ruled(words, rule_words, rule_tolerances, wide(rows)) {
        return Err(Refusal::RulesOfRow);
    }
    if !opens(kind, numbers, words, rows, limit) {
        return Err(Refusal::Opening);
    }
    if !(masses_finite(masses, wide(bodies)) & placed) {
        return Err(Refusal::Mass);
    }
    if !given_fits(kind, given, rows) {
        return Err(Refusal::Speed);
    }
    Ok(())
}

// Whether all pass, asked in the order that costs least; false too where there are no rows and the limit is 0.
fn all_ready(
    kind: Kind,
    numbers: &[f64],
    words: &[u32],
    masses: &[f64],
    rows: u32,
    bodies: u32,
    rule_words: &[u32],
    rule_tolerances: &[f64],
    given: &[f64],
    limit: u32,
    shift: f64,
    placed: bool,
) -> bool
    requires rows_in_bounds { (27 * rows ≤ length numbers.now) × (8 * rows ≤ length words.now) × (10 * bodies ≤ length masses.now) × (3 * length rule_tolerances.now ≤ length rule_words.now) }
    requires given_room { GivenRoom kind (length given.now) rows }
    ensures { result ≡ true → judge (after_three (steps_for kind rows bodies numbers.now words.now masses.now given.now (rules_in rule_words.now rule_tolerances.now) shift placed) limit) ≡ going tt }
{
    if !placed {
        return false;
    }
    if !shift_fits(shift) {
        return false;
    }
    if limit == 0 {
        return false;
    }
    if !rules_fit(rule_words, rule_tolerances) {
        return false;
    }
    if !rows_ready(
        kind,
        numbers,
        words,
        rule_words,
        rule_tolerances,
        wide(rows),
    ) {
        return false;
    }
    if !masses_finite(masses, wide(bodies)) {
        return false;
    }
    given_fits(kind, given, rows)
}

// The residual is looked at for velocities alone; `placed` tells whether the centres are finite.
// First all at once: the order matters only where one fails.
pub fn open_table(
    kind: Kind,
    numbers: &[f64],
    words: &[u32],
    masses: &[f64],
    rows: u32,
    bodies: u32,
    rule_words: &[u32],
    rule_tolerances: &[f64],
    given: &[f64],
    limit: u32,
    shift: f64,
    placed: bool,
) -> Result<(), Refusal>
    requires rows_in_bounds { (27 * rows ≤ length numbers.now) × (8 * rows ≤ length words.now) × (10 * bodies ≤ length masses.now) × (3 * length rule_tolerances.now ≤ length rule_words.now) }
    requires given_room { GivenRoom kind (length given.now) rows }
    ensures { judge (after_three (steps_for kind rows bodies numbers.now words.now masses.now given.now (rules_in rule_words.now rule_tolerances.now) shift placed) limit) ≡ told result }
{
    if all_ready(
        kind,
        numbers,
        words,
        masses,
        rows,
        bodies,
        rule_words,
        rule_tolerances,
        given,
        limit,
        shift,
        placed,
    ) {
        return Ok(());
    }
    open_in_order(
        kind,
        numbers,
        words,
        masses,
        rows,
        bodies,
        rule_words,
        rule_tolerances,
        given,
        limit,
        shift,
        placed,
    )
}
