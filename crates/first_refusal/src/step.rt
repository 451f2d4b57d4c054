// Refusals 7 to 9 of one row: the row alone through step 0 of the solve itself.
ghost use Rattle.std.specs.Prelude.{◌≡◌, ◌+◌, ◌*◌, ◌<◌, ◌≤◌, length};
ghost use Rattle.loops.specs.Run.{on};
ghost use Rattle.rules.specs.Rows.{rules_in, tolerance_in};
ghost use Rattle.position.specs.Prepare.{row_judged};
ghost use Rattle.position.specs.Kinds.{start_in};
ghost use Rattle.check_range.specs.Closing.{GivenFrom};
ghost use Rattle.first_refusal.specs.Place.{given_in};

use kapitsa_joint::Kind;
use position::begin;
use rules::one_rule;

// The tolerance of row i's rule; a NaN where it has none, which no residual exceeds.
fn tolerance_at(words: &[u32], rule_words: &[u32], rule_tolerances: &[f64], i: usize) -> f64
    requires { (8 * i + 8 ≤ length words.now) × (3 * length rule_tolerances.now ≤ length rule_words.now) }
    ensures { result ≡ tolerance_in (rules_in rule_words.now rule_tolerances.now) words.now i }
{
    let r = one_rule(rule_words, rule_tolerances, words[8 * i + 1], words[8 * i]);
    if r < rule_tolerances.len() {
        return rule_tolerances[r];
    }
    0.0 / 0.0
}

// The residual that row i starts from.
fn start_at(kind: Kind, numbers: &[f64], beside: &[f64], i: usize) -> f64
    requires { (27 * i + 27 ≤ length numbers.now) × GivenFrom kind (length beside.now) (i + 1) }
    ensures { result ≡ start_in kind numbers.now beside.now i }
{
    match kind {
        Kind::Position => -numbers[27 * i + 15],
        Kind::Velocity => beside[i],
    }
}

// 7, 8, 9, or 0 where row i passes all three.
pub fn row_refusal(
    kind: Kind,
    rows: usize,
    bodies: u32,
    numbers: &[f64],
    words: &[u32],
    masses: &[f64],
    beside: &[f64],
    rule_words: &[u32],
    rule_tolerances: &[f64],
    i: usize,
) -> u32
    requires { (27 * i + 27 ≤ length numbers.now) × (8 * i + 8 ≤ length words.now) × (10 * bodies ≤ length masses.now) × (3 * length rule_tolerances.now ≤ length rule_words.now) × GivenFrom kind (length beside.now) (i + 1) }
    ensures { result ≡ on (row_judged (given_in kind rows bodies numbers.now words.now masses.now beside.now (rules_in rule_words.now rule_tolerances.now)) i) (λ _. 0) (λ n. n) }
{
    let tolerance = tolerance_at(words, rule_words, rule_tolerances, i);
    let start = start_at(kind, numbers, beside, i);
    let mut diagonal: [f64; 1] = [0.0; 1];
    let mut residual: [f64; 1] = [start; 1];
    let row_numbers = 27 * i;
    let row_words = 8 * i;
    let begun = begin(
        false,
        &numbers[row_numbers..row_numbers + 27],
        &words[row_words..row_words + 8],
        masses,
        bodies,
        &[tolerance],
        &mut diagonal,
        &mut residual,
    );
    match begun {
        Ok(()) => 0,
        Err(refusal) => refusal.number(),
    }
}
