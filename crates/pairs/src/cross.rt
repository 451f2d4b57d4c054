// The value of one pair: SolverMass::cross at each body that the two rows share.
ghost use Rattle.std.specs.Prelude.{◌≡◌, ◌+◌, ◌*◌, ◌≤◌, length};
ghost use Rattle.kapitsa_joint.specs.Mass.{cross_of};
ghost use Rattle.compact_table.specs.Compact.{compact_of};
ghost use Rattle.pairs.specs.Pairs.{sum_of};
ghost use Rattle.pairs.specs.Gather.{crossed_out, number_of, met_of, met_at, value_with};

use crate::arms::{Arm, Arms};
use compact_table::compact_at;
use kapitsa_joint::SolverMass;
use kapitsa_math::Vec3;

// The number of SolverMass::cross, untested: pair values are tested when all are there.
pub fn cross_value(
    mass: SolverMass,
    linear_a: Vec3,
    angular_a: Vec3,
    linear_b: Vec3,
    angular_b: Vec3,
) -> f64
    ensures { result ≡ cross_of mass linear_a angular_a linear_b angular_b }
{
    let inertia = mass.inverse_inertia;
    let response = inertia.mul_vector(angular_b);
    mass.inverse_mass * linear_a.dot(linear_b) + angular_a.dot(response)
}

// The same number, with the other row's arm formed before.
fn met(arm: Arm, linear: Vec3, angular: Vec3) -> f64
    ensures { result ≡ met_of arm linear angular }
{
    let response = arm.response;
    arm.inverse_mass * linear.dot(arm.linear) + angular.dot(response)
}

// What the lower row does at `body`, with the higher row's arm there, if it has one.
fn met_at(higher: Arms, body: u32, linear: Vec3, angular: Vec3) -> Option<f64>
    ensures { met_at higher body linear angular ≡ crossed_out result }
{
    let a = higher.a;
    if a.body == body {
        return Some(met(a, linear, angular));
    }
    let b = higher.b;
    if b.body == body {
        return Some(met(b, linear, angular));
    }
    None
}

// The sum of the crosses that are there; +0.0 where none is, which no pair meets.
#[tactic(auto, unfolding(crate::specs::Gather::number_of, crate::specs::Pairs::sum_of))]
fn sum(first: Option<f64>, second: Option<f64>) -> f64
    ensures { result ≡ number_of (sum_of (crossed_out first) (crossed_out second)) }
{
    match (first, second) {
        (Some(x), Some(y)) => x + y,
        (Some(x), None) => x,
        (None, Some(y)) => y,
        (None, None) => 0.0,
    }
}

// The value of the row of `higher` and row `j`. The share of the higher body comes first (document 02, i). The bits do not depend on it: a rounded sum commutes.
pub fn value_with(jacobians: &[f64], links: &[u32], higher: Arms, j: usize) -> f64
    requires { (12 * j + 12 ≤ length jacobians.now) × (2 * j + 2 ≤ length links.now) }
    ensures { result ≡ value_with higher (compact_of jacobians.now links.now j) }
{
    let lower = compact_at(jacobians, links, j);
    let a = met_at(higher, lower.body_a, lower.linear_a, lower.angular_a);
    let b = met_at(higher, lower.body_b, lower.linear_b, lower.angular_b);
    if lower.body_b < lower.body_a {
        sum(a, b)
    } else {
        sum(b, a)
    }
}
