// Where a solve was turned back, for C: 0 with the place, or 3.
ghost use Rattle.std.specs.Prelude.{◌≡◌, [], ◌∷◌, length};
ghost use Rattle.rules.specs.Rows.{rules_in};
ghost use Rattle.first_refusal.specs.Room.{place_in};
ghost use Rattle.kapitsa_report_c.specs.Refusing.{kind_for, place_words, place_fits, place_told};

use first_refusal::{Place, first_refused};
use kapitsa_joint::Kind;

// 1 for velocities.
fn kind_for(velocities: u32) -> Kind
    ensures { result ≡ kind_for velocities }
{
    if velocities == 1 {
        return Kind::Velocity;
    }
    Kind::Position
}

fn put_two(what: u32, which: u32, place: &mut [u32])
    requires { length place.old ≡ 2 }
    ensures { place.new ≡ what ∷ (which ∷ []) }
{
    place[0] = what;
    place[1] = which;
}

fn tell_place(found: Place, place: &mut [u32])
    requires { length place.old ≡ 2 }
    ensures { place.new ≡ place_words found }
{
    match found {
        Place::Row(i) => put_two(1, i, place),
        Place::Body(b) => put_two(2, b, place),
        Place::Rule(r) => put_two(3, r, place),
        Place::Limit => put_two(4, 0, place),
        Place::None => put_two(0, 0, place),
    }
}

// For n rows, b bodies and t rules, at most 64, as the solve was given them: numbers 27n, words 8n, masses 10b, beside 3b (the centres) or, where velocities is 1, n (the residual), rule_words 3t (dimension, first key, last key), rule_tolerances t; number is the refusal's.
// place 2: 1 and the row, 2 and the body, 3 and the rule, 4 and 0 for a limit of 0, or 0 and 0 where the number has no place or a length does not fit the counts. 3 is returned where place is not 2 long or velocities is above 1, and then nothing is written.
#[unsafe(no_mangle)]
pub extern "C" fn kapitsa_first_refused(
    velocities: u32,
    number: u32,
    numbers: &[f64],
    words: &[u32],
    masses: &[f64],
    beside: &[f64],
    rule_words: &[u32],
    rule_tolerances: &[f64],
    rows: u32,
    bodies: u32,
    limit: u32,
    place: &mut [u32],
) -> u32
    ensures { record { number = result; place = place.new } ≡ place_told (place_fits velocities place.old) (place_in (kind_for velocities) rows bodies numbers.now words.now masses.now beside.now (rules_in rule_words.now rule_tolerances.now) number limit) place.old }
{
    if !((velocities <= 1) & (place.len() == 2)) {
        return 3;
    }
    let found = first_refused(
        kind_for(velocities),
        number,
        rows,
        bodies,
        numbers,
        words,
        masses,
        beside,
        rule_words,
        rule_tolerances,
        limit,
    );
    tell_place(found, place);
    0
}
