// Refusals 4 to 7, of one row or mass and over a whole table. True where the refusal's own test passes.
ghost use Rattle.std.specs.Prelude.{◌≡◌, List, ℕ, ◌+◌, ◌*◌, ◌≤◌, length, get_or};
ghost use Rattle.std.specs.Float.{nan};
ghost use Rattle.loops.specs.Every.{every};
ghost use Rattle.kapitsa_math.specs.Lent.{vec_of};
ghost use Rattle.kapitsa_math.specs.Vector.{is_finite_of};
ghost use Rattle.kapitsa_joint.specs.Row.{words_of, scalars_of, row_of};
ghost use Rattle.kapitsa_joint.specs.Mass.{mass_of};
ghost use Rattle.kapitsa_joint.specs.Centre.{centres_in};
ghost use Rattle.joint_refusals.specs.Refusals.{words_fit_of, opens_of, velocity_opens_of, passes20, mass_finite_of, centres_finite, bodies_below_of, jacobians_finite_of, scalars_finite_of, scalars_in_range_of, is_valid_of};

use kapitsa_joint::{RowScalars, RowWords, SolverMass, mass_at, scalars_at, words_at};
use kapitsa_math::vec_at;

// Refusal 4: key, dimension, flags and spare have the values of document 01.
pub fn row_words_fit(w: RowWords) -> bool
    ensures { result ≡ words_fit_of w }
{
    (w.key <= 255)
        & (w.dimension <= 1)
        & (w.force_driven <= 1)
        & (w.position_enabled <= 1)
        & (w.spare == 0)
}

fn words_fit_at(words: &[u32], i: usize) -> bool
    requires { 8 * i + 8 ≤ length words.now }
    ensures { result ≡ words_fit_of (words_of words.now (8 * i)) }
{
    row_words_fit(words_at(words, 8 * i))
}

pub fn words_fit(words: &[u32], rows: usize) -> bool
    requires { 8 * rows ≤ length words.now }
    ensures { result ≡ every (λ i. words_fit_of (words_of words.now (8 * i))) rows }
{
    (0..rows).all(|i| words_fit_at(words, i))
}

// Refusal 5, the Rust's opening test: position on, rigid, not driven, unbounded.
pub fn row_opens(s: RowScalars, w: RowWords) -> bool
    ensures { result ≡ opens_of s w }
{
    let infinity = f64::from_bits(0x7ff0_0000_0000_0000);
    (w.position_enabled == 1)
        & (s.compliance == 0.0)
        & (s.damping == 0.0)
        & (w.force_driven == 0)
        & (s.min_multiplier == -infinity)
        & (s.max_multiplier == infinity)
}

fn row_opens_at(numbers: &[f64], words: &[u32], i: usize) -> bool
    requires { (27 * i + 27 ≤ length numbers.now) × (8 * i + 8 ≤ length words.now) }
    ensures { result ≡ opens_of (scalars_of numbers.now (27 * i + 15)) (words_of words.now (8 * i)) }
{
    row_opens(scalars_at(numbers, 27 * i + 15), words_at(words, 8 * i))
}

pub fn rows_open(numbers: &[f64], words: &[u32], rows: usize) -> bool
    requires { (27 * rows ≤ length numbers.now) × (8 * rows ≤ length words.now) }
    ensures { result ≡ every (λ i. opens_of (scalars_of numbers.now (27 * i + 15)) (words_of words.now (8 * i))) rows }
{
    (0..rows).all(|i| row_opens_at(numbers, words, i))
}

// The same of velocities: the bounds of the impulse, and position on or off.
pub fn velocity_row_opens(s: RowScalars, w: RowWords) -> bool
    ensures { result ≡ velocity_opens_of s w }
{
    let infinity = f64::from_bits(0x7ff0_0000_0000_0000);
    (s.compliance == 0.0)
        & (s.damping == 0.0)
        & (w.force_driven == 0)
        & (s.min_impulse == -infinity)
        & (s.max_impulse == infinity)
}

fn velocity_row_opens_at(numbers: &[f64], words: &[u32], i: usize) -> bool
    requires { (27 * i + 27 ≤ length numbers.now) × (8 * i + 8 ≤ length words.now) }
    ensures { result ≡ velocity_opens_of (scalars_of numbers.now (27 * i + 15)) (words_of words.now (8 * i)) }
{
    velocity_row_opens(scalars_at(numbers, 27 * i + 15), words_at(words, 8 * i))
}

pub fn velocity_rows_open(numbers: &[f64], words: &[u32], rows: usize) -> bool
    requires { (27 * rows ≤ length numbers.now) × (8 * rows ≤ length words.now) }
    ensures { result ≡ every (λ i. velocity_opens_of (scalars_of numbers.now (27 * i + 15)) (words_of words.now (8 * i))) rows }
{
    (0..rows).all(|i| velocity_row_opens_at(numbers, words, i))
}

// Refusal 6: every mass number is finite,
pub fn mass_finite(mass: SolverMass) -> bool
    ensures { result ≡ mass_finite_of mass }
{
    let inertia = mass.inverse_inertia;
    binary64::is_finite(mass.inverse_mass) & inertia.is_finite()
}

fn mass_finite_at(masses: &[f64], b: usize) -> bool
    requires { 10 * b + 10 ≤ length masses.now }
    ensures { result ≡ mass_finite_of (mass_of masses.now b) }
{
    mass_finite(mass_at(masses, b))
}

pub fn masses_finite(masses: &[f64], bodies: usize) -> bool
    requires { 10 * bodies ≤ length masses.now }
    ensures { result ≡ every (λ b. mass_finite_of (mass_of masses.now b)) bodies }
{
    (0..bodies).all(|b| mass_finite_at(masses, b))
}

fn vec_finite_at(numbers: &[f64], at: usize) -> bool
    requires { at + 3 ≤ length numbers.now }
    ensures { result ≡ is_finite_of (vec_of numbers.now at) }
{
    let v = vec_at(numbers, at);
    v.is_finite()
}

// and every centre's number.
pub fn centres_finite(centres: &[f64], bodies: usize) -> bool
    requires { 3 * bodies ≤ length centres.now }
    ensures { result ≡ centres_finite (centres_in bodies centres.now) }
{
    (0..bodies).all(|b| vec_finite_at(centres, 3 * b))
}

// Refusal 20: every lent residual is finite.
pub fn residuals_finite(residuals: &[f64], rows: usize) -> bool
    requires { rows ≤ length residuals.now }
    ensures { result ≡ passes20 (λ i. get_or residuals.now i nan) rows }
{
    (0..rows).all(|i| binary64::is_finite(residuals[i]))
}

// Refusal 7: ConstraintRow::is_valid of row.rs, in four groups.
pub fn bodies_below(w: RowWords, bodies: u32) -> bool
    ensures { result ≡ bodies_below_of bodies w }
{
    (w.body_a != w.body_b) & (w.body_a < bodies) & (w.body_b < bodies)
}

// The five vectors of row i, whatever its words are.
fn jacobians_finite_at(numbers: &[f64], i: usize) -> bool
    requires { 27 * i + 27 ≤ length numbers.now }
    ensures { (words : List ℕ) → result ≡ jacobians_finite_of (row_of numbers.now words i) }
{
    let at = 27 * i;
    vec_finite_at(numbers, at)
        & vec_finite_at(numbers, at + 3)
        & vec_finite_at(numbers, at + 6)
        & vec_finite_at(numbers, at + 9)
        & vec_finite_at(numbers, at + 12)
}

pub fn scalars_finite(s: RowScalars) -> bool
    ensures { result ≡ scalars_finite_of s }
{
    binary64::is_finite(s.error)
        & binary64::is_finite(s.target_velocity)
        & binary64::is_finite(s.force_bias)
        & binary64::is_finite(s.compliance)
        & binary64::is_finite(s.damping)
        & binary64::is_finite(s.accumulated_multiplier)
        & binary64::is_finite(s.accumulated_impulse)
        & binary64::is_finite(s.cached_velocity_effective_mass)
}

pub fn scalars_in_range(s: RowScalars) -> bool
    ensures { result ≡ scalars_in_range_of s }
{
    (0.0 <= s.compliance)
        & (0.0 <= s.damping)
        & (s.min_multiplier <= s.max_multiplier)
        & (s.min_impulse <= s.max_impulse)
        & (0.0 <= s.cached_velocity_effective_mass)
}

// Read from the slices: a whole row by value is 35 numbers that go through the stack.
pub fn is_valid_at(numbers: &[f64], words: &[u32], i: usize, bodies: u32) -> bool
    requires { (27 * i + 27 ≤ length numbers.now) × (8 * i + 8 ≤ length words.now) }
    ensures { result ≡ is_valid_of bodies (row_of numbers.now words.now i) }
{
    let scalars = scalars_at(numbers, 27 * i + 15);
    bodies_below(words_at(words, 8 * i), bodies)
        & jacobians_finite_at(numbers, i)
        & scalars_finite(scalars)
        & scalars_in_range(scalars)
}

pub fn rows_valid(numbers: &[f64], words: &[u32], rows: usize, bodies: u32) -> bool
    requires { (27 * rows ≤ length numbers.now) × (8 * rows ≤ length words.now) }
    ensures { result ≡ every (λ i. is_valid_of bodies (row_of numbers.now words.now i)) rows }
{
    (0..rows).all(|i| is_valid_at(numbers, words, i, bodies))
}
