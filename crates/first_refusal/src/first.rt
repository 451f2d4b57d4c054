// The first that fails, and the entry point.
ghost use Rattle.std.specs.Prelude.{◌≡◌, true, cond, eqb, length};
ghost use Rattle.rules.specs.Rows.{rules_in};
ghost use Rattle.block_jacobi.specs.Runs.{leading};
ghost use Rattle.first_refusal.specs.Place.{passes_at, count_of, first_of};
ghost use Rattle.first_refusal.specs.Room.{tables_fit, place_in};

use crate::place::Place;
use crate::tests::passes_at;
use check_refusals::{TableLengths, given_fits};
use kapitsa_joint::Kind;

// How many rows, bodies or rules this number judges.
fn count_of(number: u32, rows: u32, bodies: u32, rules: usize) -> usize
    ensures { result ≡ cond (eqb number 6) bodies (cond (eqb number 27) rules rows) }
{
    if number == 6 {
        return bodies as usize;
    }
    if number == 27 {
        return rules;
    }
    rows as usize
}

// The least index that fails, or their count.
fn first_failing(
    kind: Kind,
    number: u32,
    rows: u32,
    bodies: u32,
    numbers: &[f64],
    words: &[u32],
    masses: &[f64],
    beside: &[f64],
    rule_words: &[u32],
    rule_tolerances: &[f64],
    count: usize,
) -> usize
    requires rule_tolerances_value { tables_fit kind rows bodies numbers.now words.now masses.now beside.now (rules_in rule_words.now rule_tolerances.now) ≡ true }
    requires count_value { count ≡ count_of kind rows bodies numbers.now words.now masses.now beside.now (rules_in rule_words.now rule_tolerances.now) number }
    ensures { result ≡ leading (passes_at kind rows bodies numbers.now words.now masses.now beside.now (rules_in rule_words.now rule_tolerances.now) number) count }
{
    for i in 0..count {
        if !passes_at(
            kind,
            number,
            rows,
            bodies,
            numbers,
            words,
            masses,
            beside,
            rule_words,
            rule_tolerances,
            i,
        ) {
            return i;
        }
    }
    count
}

// The first that fails, named.
fn first_place(
    kind: Kind,
    number: u32,
    rows: u32,
    bodies: u32,
    numbers: &[f64],
    words: &[u32],
    masses: &[f64],
    beside: &[f64],
    rule_words: &[u32],
    rule_tolerances: &[f64],
) -> Place
    requires { tables_fit kind rows bodies numbers.now words.now masses.now beside.now (rules_in rule_words.now rule_tolerances.now) ≡ true }
    ensures { result ≡ first_of kind rows bodies numbers.now words.now masses.now beside.now (rules_in rule_words.now rule_tolerances.now) number }
{
    let count = count_of(number, rows, bodies, rule_tolerances.len());
    let first = first_failing(
        kind,
        number,
        rows,
        bodies,
        numbers,
        words,
        masses,
        beside,
        rule_words,
        rule_tolerances,
        count,
    );
    if count <= first {
        return Place::None;
    }
    if number == 6 {
        return Place::Body(first as u32);
    }
    if number == 27 {
        return Place::Rule(first as u32);
    }
    Place::Row(first as u32)
}

// Of a solve that this number turned back, given what the solve was given: the first row for 4, 5, 7, 8, 9, 11 and 28 (11: the first row of the run), the first body for 6, the first rule for 27, and the limit for a 5 that a limit of 0 gives.
// None where the number judges nothing one by one, where nothing fails its test, and where a length does not fit the counts. `beside` is of positions the centres and of velocities the residual.
pub fn first_refused(
    kind: Kind,
    number: u32,
    rows: u32,
    bodies: u32,
    numbers: &[f64],
    words: &[u32],
    masses: &[f64],
    beside: &[f64],
    rule_words: &[u32],
    rule_tolerances: &[f64],
    limit: u32,
) -> Place
    ensures { result ≡ place_in kind rows bodies numbers.now words.now masses.now beside.now (rules_in rule_words.now rule_tolerances.now) number limit }
{
    let lengths = TableLengths {
        numbers: numbers.len(),
        words: words.len(),
        masses: masses.len(),
        beside: beside.len(),
        multipliers: rows as usize,
        rule_words: rule_words.len(),
        rule_tolerances: rule_tolerances.len(),
        rule_numbers: rows as usize,
    };
    if !given_fits(kind, rows, bodies, lengths) {
        return Place::None;
    }
    if (number == 5) & (rows != 0) & (limit == 0) {
        return Place::Limit;
    }
    first_place(
        kind,
        number,
        rows,
        bodies,
        numbers,
        words,
        masses,
        beside,
        rule_words,
        rule_tolerances,
    )
}
