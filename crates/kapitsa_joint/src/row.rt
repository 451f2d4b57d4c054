// ConstraintRow of row.rs in the lent tables: 27 doubles and eight words a row. The layout is that of specs/Row.antt.
ghost use Rattle.std.specs.Prelude.{◌≡◌, ◌+◌, ◌*◌, ◌≤◌, length};
ghost use Rattle.kapitsa_joint.specs.Row.{scalars_of, words_of, row_of, jacobian_of};

use kapitsa_math::{Vec3, vec_at};

// error through cached_velocity_effective_mass, in row.rs order.
#[derive(Clone, Copy)]
pub struct RowScalars {
    pub error: f64,
    pub target_velocity: f64,
    pub force_bias: f64,
    pub compliance: f64,
    pub damping: f64,
    pub min_multiplier: f64,
    pub max_multiplier: f64,
    pub min_impulse: f64,
    pub max_impulse: f64,
    pub accumulated_multiplier: f64,
    pub accumulated_impulse: f64,
    pub cached_velocity_effective_mass: f64,
}

// The words as they come: that a dimension is 0 or 1 and a flag 0 or 1 is refusal 4's to say.
#[derive(Clone, Copy, Debug, PartialEq, Eq)]
pub struct RowWords {
    pub key: u32,
    pub dimension: u32,
    pub body_a: u32,
    pub body_b: u32,
    pub force_driven: u32,
    pub position_enabled: u32,
    pub owner: u32,
    pub spare: u32,
}

#[derive(Clone, Copy)]
pub struct ConstraintRow {
    pub linear_a: Vec3,
    pub angular_a: Vec3,
    pub position_angular_a: Vec3,
    pub linear_b: Vec3,
    pub angular_b: Vec3,
    pub scalars: RowScalars,
    pub words: RowWords,
}

// What the mass operator and the factors read of a row.
#[derive(Clone, Copy)]
pub struct RowJacobian {
    pub linear_a: Vec3,
    pub angular_a: Vec3,
    pub linear_b: Vec3,
    pub angular_b: Vec3,
    pub body_a: u32,
    pub body_b: u32,
}

#[tactic(auto, unfolding(crate::specs::Row::scalars_of))]
pub fn scalars_at(numbers: &[f64], at: usize) -> RowScalars
    requires { at + 12 ≤ length numbers.now }
    ensures { result ≡ scalars_of numbers.now at }
{
    RowScalars {
        error: numbers[at],
        target_velocity: numbers[at + 1],
        force_bias: numbers[at + 2],
        compliance: numbers[at + 3],
        damping: numbers[at + 4],
        min_multiplier: numbers[at + 5],
        max_multiplier: numbers[at + 6],
        min_impulse: numbers[at + 7],
        max_impulse: numbers[at + 8],
        accumulated_multiplier: numbers[at + 9],
        accumulated_impulse: numbers[at + 10],
        cached_velocity_effective_mass: numbers[at + 11],
    }
}

#[tactic(auto, unfolding(crate::specs::Row::words_of))]
pub fn words_at(words: &[u32], at: usize) -> RowWords
    requires { at + 8 ≤ length words.now }
    ensures { result ≡ words_of words.now at }
{
    RowWords {
        key: words[at],
        dimension: words[at + 1],
        body_a: words[at + 2],
        body_b: words[at + 3],
        force_driven: words[at + 4],
        position_enabled: words[at + 5],
        owner: words[at + 6],
        spare: words[at + 7],
    }
}

// Row i, whole.
#[tactic(auto, unfolding(crate::specs::Row::row_of))]
pub fn row_at(numbers: &[f64], words: &[u32], i: usize) -> ConstraintRow
    requires { (27 * i + 27 ≤ length numbers.now) × (8 * i + 8 ≤ length words.now) }
    ensures { result ≡ row_of numbers.now words.now i }
{
    let at = 27 * i;
    ConstraintRow {
        linear_a: vec_at(numbers, at),
        angular_a: vec_at(numbers, at + 3),
        position_angular_a: vec_at(numbers, at + 6),
        linear_b: vec_at(numbers, at + 9),
        angular_b: vec_at(numbers, at + 12),
        scalars: scalars_at(numbers, at + 15),
        words: words_at(words, 8 * i),
    }
}

// Of row i only the twelve Jacobian numbers and the two bodies.
#[tactic(auto, unfolding(crate::specs::Row::row_of, crate::specs::Row::jacobian_of, crate::specs::Row::words_of))]
pub fn jacobian_at(numbers: &[f64], words: &[u32], i: usize) -> RowJacobian
    requires { (27 * i + 27 ≤ length numbers.now) × (8 * i + 8 ≤ length words.now) }
    ensures { result ≡ jacobian_of (row_of numbers.now words.now i) }
{
    let at = 27 * i;
    let word = 8 * i;
    RowJacobian {
        linear_a: vec_at(numbers, at),
        angular_a: vec_at(numbers, at + 3),
        linear_b: vec_at(numbers, at + 9),
        angular_b: vec_at(numbers, at + 12),
        body_a: words[word + 2],
        body_b: words[word + 3],
    }
}
