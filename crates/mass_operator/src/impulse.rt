// The impulses of a vector of coefficients: add_generalized_impulse and global_velocity_impulse of pcg.rs.
ghost use Rattle.std.specs.Prelude.{◌≡◌, ◌+◌, ◌*◌, ◌<◌, ◌≤◌, length, get_or};
ghost use Rattle.compact_table.specs.Compact.{compact_of, Linked};
ghost use Rattle.mass_operator.specs.Operator.{add_impulse_of};
ghost use Rattle.mass_operator.specs.Flat.{coefficients, Summed};
ghost use Rattle.mass_operator.specs.Lent.{Summing};
ghost use Rattle.mass_operator.specs.BodyPair.{added_row, RunAdded};

use crate::body_pair::{BodyPair, body_pair_at, on_bodies, put_body_pair};
use crate::finite::{NotFinite, test_finite};
use compact_table::compact_at;
use kapitsa_joint::GeneralizedImpulse;
use kapitsa_math::Vec3;

#[tactic(auto, unfolding(crate::specs::Operator::add_impulse_of))]
pub fn add_generalized_impulse(
    impulse: GeneralizedImpulse,
    linear: Vec3,
    angular: Vec3,
    coefficient: f64,
) -> GeneralizedImpulse
    ensures { result ≡ add_impulse_of impulse linear angular coefficient }
{
    let before = impulse.linear;
    let turning = impulse.angular;
    GeneralizedImpulse {
        linear: before.add(linear.scale(coefficient)),
        angular: turning.add(angular.scale(coefficient)),
    }
}

// One more term for each body of row `i`.
#[tactic(auto, unfolding(crate::specs::BodyPair::added_row))]
fn add_row(jacobians: &[f64], links: &[u32], vector: &[f64], i: usize, pair: BodyPair) -> BodyPair
    requires { (12 * i + 12 ≤ length jacobians.now) × (2 * i + 2 ≤ length links.now) × (i < length vector.now) }
    ensures { result ≡ added_row pair (compact_of jacobians.now links.now i) (coefficients vector.now i) }
{
    let coefficient = vector[i];
    let j = compact_at(jacobians, links, i);
    let linear_a = j.linear_a;
    let angular_a = j.angular_a;
    let linear_b = j.linear_b;
    let angular_b = j.angular_b;
    BodyPair {
        body_a: pair.body_a,
        body_b: pair.body_b,
        of_a: add_generalized_impulse(pair.of_a, linear_a, angular_a, coefficient),
        of_b: add_generalized_impulse(pair.of_b, linear_b, angular_b, coefficient),
    }
}

// Rows that follow one another on the same two bodies: the bodies with the terms of those rows, and the row behind the last.
#[derive(Clone, Copy)]
pub struct Run {
    pub pair: BodyPair,
    pub end: usize,
}

// The rows from `first` on that are on its bodies. Until the run ends these are held and not in the slice, so that a row is read and nothing else.
fn add_run(jacobians: &[f64], links: &[u32], vector: &[f64], first: usize, impulses: &[f64]) -> Run
    requires vector_in_bounds { (12 * length vector.now ≤ length jacobians.now) × (2 * length vector.now ≤ length links.now) × (first < length vector.now) }
    requires first_in_bounds { (6 * (get_or links.now (2 * first) 0) + 6 ≤ length impulses.now) × (6 * (get_or links.now (2 * first + 1) 0) + 6 ≤ length impulses.now) }
    ensures { RunAdded jacobians.now links.now (coefficients vector.now) (length vector.now) first impulses.now result }
{
    let taken = body_pair_at(links, first, impulses);
    let mut pair = add_row(jacobians, links, vector, first, taken);
    for i in first + 1..vector.len() {
        if !on_bodies(links, i, pair) {
            return Run { pair: pair, end: i };
        }
        pair = add_row(jacobians, links, vector, i, pair);
    }
    Run {
        pair: pair,
        end: vector.len(),
    }
}

// The impulse of every body, rows ascending from +0.0.
pub fn sum_impulses(
    jacobians: &[f64],
    links: &[u32],
    vector: &[f64],
    bodies: usize,
    impulses: &mut [f64],
)
    requires vector_in_bounds { (12 * length vector.now ≤ length jacobians.now) × (2 * length vector.now ≤ length links.now) }
    requires impulses_len { (length impulses.old ≡ 6 * bodies) × Linked links.now (length vector.now) bodies }
    ensures { Summing (compact_of jacobians.now links.now) (coefficients vector.now) bodies (length vector.now) impulses.new }
{
    loops::clear(impulses);
    let mut i = 0;
    while i < vector.len() {
        let run = add_run(jacobians, links, vector, i, impulses);
        put_body_pair(impulses, run.pair);
        i = run.end;
    }
}

// The same, with the answer whether every number of it is finite.
pub fn global_velocity_impulse(
    jacobians: &[f64],
    links: &[u32],
    vector: &[f64],
    bodies: usize,
    impulses: &mut [f64],
) -> Result<(), NotFinite>
    requires vector_in_bounds { (12 * length vector.now ≤ length jacobians.now) × (2 * length vector.now ≤ length links.now) }
    requires impulses_len { (length impulses.old ≡ 6 * bodies) × Linked links.now (length vector.now) bodies }
    ensures { Summed (compact_of jacobians.now links.now) (coefficients vector.now) (length vector.now) bodies result impulses.new }
{
    sum_impulses(jacobians, links, vector, bodies, impulses);
    test_finite(impulses)
}
