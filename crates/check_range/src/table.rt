// Refusal 18 over the lent tables and the listed multipliers.
ghost use Rattle.std.specs.Prelude.{◌≡◌, ◌+◌, ◌*◌, ◌≤◌, length, get_or};
ghost use Rattle.std.specs.Float.{nan};
ghost use Rattle.loops.specs.Every.{every};
ghost use Rattle.kapitsa_joint.specs.Row.{row_of, jacobian_of};
ghost use Rattle.kapitsa_joint.specs.Mass.{mass_of};
ghost use Rattle.kapitsa_joint.specs.Table.{table_of};
ghost use Rattle.check_range.specs.Closing.{error_in, GivenFrom};
ghost use Rattle.check_range.specs.Range.{mass_in_range, row_in_range, table_in_range};

use crate::number::{in_range, jacobian_in_range, mass_in_range};
use kapitsa_joint::{Kind, jacobian_at, mass_at};

// The row's own error or, of velocities, the negated residual.
pub fn error_at(kind: Kind, numbers: &[f64], given: &[f64], i: usize) -> f64
    requires { (27 * i + 27 ≤ length numbers.now) × GivenFrom kind (length given.now) (i + 1) }
    ensures { result ≡ error_in kind numbers.now given.now i }
{
    match kind {
        Kind::Position => numbers[27 * i + 15],
        Kind::Velocity => -given[i],
    }
}

#[tactic(auto, unfolding(crate::specs::Range::row_in_range))]
pub fn row_in_range_at(
    kind: Kind,
    numbers: &[f64],
    words: &[u32],
    given: &[f64],
    multipliers: &[f64],
    i: usize,
) -> bool
    requires { (27 * i + 27 ≤ length numbers.now) × (8 * i + 8 ≤ length words.now) × (i + 1 ≤ length multipliers.now) × GivenFrom kind (length given.now) (i + 1) }
    ensures { result ≡ row_in_range (jacobian_of (row_of numbers.now words.now i)) (error_in kind numbers.now given.now i) (get_or multipliers.now i nan) }
{
    jacobian_in_range(jacobian_at(numbers, words, i))
        & in_range(error_at(kind, numbers, given, i))
        & in_range(multipliers[i])
}

fn rows_in_range(
    kind: Kind,
    numbers: &[f64],
    words: &[u32],
    given: &[f64],
    multipliers: &[f64],
    rows: usize,
) -> bool
    requires { (27 * rows ≤ length numbers.now) × (8 * rows ≤ length words.now) × (rows ≤ length multipliers.now) × GivenFrom kind (length given.now) rows }
    ensures { result ≡ every (λ i. row_in_range (jacobian_of (row_of numbers.now words.now i)) (error_in kind numbers.now given.now i) (get_or multipliers.now i nan)) rows }
{
    (0..rows).all(|i| row_in_range_at(kind, numbers, words, given, multipliers, i))
}

fn mass_in_range_at(masses: &[f64], b: usize) -> bool
    requires { 10 * b + 10 ≤ length masses.now }
    ensures { result ≡ mass_in_range (mass_of masses.now b) }
{
    mass_in_range(mass_at(masses, b))
}

pub fn masses_in_range(masses: &[f64], bodies: usize) -> bool
    requires { 10 * bodies ≤ length masses.now }
    ensures { result ≡ every (λ b. mass_in_range (mass_of masses.now b)) bodies }
{
    (0..bodies).all(|b| mass_in_range_at(masses, b))
}

// Every row with its listed multiplier, and every mass, also of bodies in no row.
#[tactic(auto, unfolding(crate::specs::Range::table_in_range))]
pub fn table_in_range(
    kind: Kind,
    numbers: &[f64],
    words: &[u32],
    masses: &[f64],
    given: &[f64],
    multipliers: &[f64],
    rows: usize,
    bodies: usize,
) -> bool
    requires { (27 * rows ≤ length numbers.now) × (8 * rows ≤ length words.now) × (10 * bodies ≤ length masses.now) × (rows ≤ length multipliers.now) × GivenFrom kind (length given.now) rows }
    ensures { result ≡ table_in_range (table_of rows bodies numbers.now words.now masses.now) (error_in kind numbers.now given.now) (λ i. get_or multipliers.now i nan) }
{
    rows_in_range(kind, numbers, words, given, multipliers, rows) & masses_in_range(masses, bodies)
}
