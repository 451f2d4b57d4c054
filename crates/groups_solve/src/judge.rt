// What is judged of the whole table before its groups: 3, then 25, 4, 27, 28, 6, of velocities 20, and 7, in this order.
ghost use Rattle.std.specs.Prelude.{◌≡◌, ◌*◌, ◌≤◌, length};
ghost use Rattle.loops.specs.Judge.{judge};
ghost use Rattle.kapitsa_joint.specs.Kind.{placed_of};
ghost use Rattle.rules.specs.Rows.{rules_in};
ghost use Rattle.position_steps.specs.Opening.{given_fits};
ghost use Rattle.solve_method.specs.Position.{solve_for};
ghost use Rattle.position.specs.Kinds.{GivenRoom};
ghost use Rattle.refusals.specs.Told.{told};
ghost use Rattle.groups_solve.specs.Judged.{bench_tests, groups_lent, centres_pass};

use joint_refusals::{centres_finite, masses_finite, residuals_finite, rows_valid, words_fit};
use kapitsa_joint::Kind;
use preconditioner::shift_fits;
use refusals::Refusal;
use rules::{rows_ruled, rules_fit};

// 3, of the slices that take the groups.
pub fn groups_lent(rows: u32, numbers: usize, answers: usize, maxima: usize) -> bool
    ensures { result ≡ groups_lent rows numbers answers maxima }
{
    let n = rows as usize;
    (numbers == n) & (answers == 3 * n) & (maxima == 2 * n)
}

// 6, of the centres, which velocities have none of.
fn centres_pass(kind: Kind, centres: &[f64], bodies: u32) -> bool
    requires { 3 * placed_of kind bodies ≤ length centres.now }
    ensures { result ≡ centres_pass kind bodies centres.now }
{
    match kind {
        Kind::Position => centres_finite(centres, bodies as usize),
        Kind::Velocity => true,
    }
}

// 20, of velocities alone.
fn given_pass(kind: Kind, given: &[f64], rows: u32) -> bool
    requires { GivenRoom kind (length given.now) rows }
    ensures { result ≡ given_fits kind given.now rows }
{
    match kind {
        Kind::Position => true,
        Kind::Velocity => residuals_finite(given, rows as usize),
    }
}

// Once 3 has passed.
pub fn judge_bench(
    kind: Kind,
    numbers: &[f64],
    words: &[u32],
    masses: &[f64],
    centres: &[f64],
    rows: u32,
    bodies: u32,
    rule_words: &[u32],
    rule_tolerances: &[f64],
    given: &[f64],
    shift: f64,
) -> Result<(), Refusal>
    requires { (27 * rows ≤ length numbers.now) × (8 * rows ≤ length words.now) × (10 * bodies ≤ length masses.now) × (3 * placed_of kind bodies ≤ length centres.now) × (3 * length rule_tolerances.now ≤ length rule_words.now) × GivenRoom kind (length given.now) rows }
    ensures { judge (bench_tests (solve_for kind rows bodies numbers.now words.now masses.now centres.now given.now (rules_in rule_words.now rule_tolerances.now) shift)) ≡ told result }
{
    if !shift_fits(shift) {
        return Err(Refusal::Shift);
    }
    if !words_fit(words, rows as usize) {
        return Err(Refusal::Word);
    }
    if !rules_fit(rule_words, rule_tolerances) {
        return Err(Refusal::Rule);
    }
    if !rows_ruled(words, rule_words, rule_tolerances, rows as usize) {
        return Err(Refusal::RulesOfRow);
    }
    if !(masses_finite(masses, bodies as usize) & centres_pass(kind, centres, bodies)) {
        return Err(Refusal::Mass);
    }
    if !given_pass(kind, given, rows) {
        return Err(Refusal::Speed);
    }
    if !rows_valid(numbers, words, rows as usize, bodies) {
        return Err(Refusal::Row);
    }
    Ok(())
}
