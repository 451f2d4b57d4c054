// The operator on a vector: global_velocity_matrix_vector of pcg.rs.
ghost use Rattle.std.specs.Prelude.{◌≡◌, ◌+◌, ◌*◌, ◌<◌, ◌≤◌, length, get_or, set};
ghost use Rattle.std.specs.Float.{nan, binary64};
ghost use Rattle.std.specs.Float.Ieee.{add, mul};
ghost use Rattle.loops.specs.Tabulate.{tabulate};
ghost use Rattle.kapitsa_joint.specs.Impulse.{paired_of, put_paired_of};
ghost use Rattle.kapitsa_joint.specs.Mass.{mass_of};
ghost use Rattle.compact_table.specs.Compact.{compact_of, Linked};
ghost use Rattle.mass_operator.specs.System.{compact_system};
ghost use Rattle.mass_operator.specs.Dot.{dot_product_of};
ghost use Rattle.mass_operator.specs.Operator.{response_of, row_value_of};
ghost use Rattle.mass_operator.specs.Flat.{Multiplied};
ghost use Rattle.mass_operator.specs.Lent.{Paired, value_in};
ghost use Rattle.mass_operator.specs.BodyPair.{Valued};

use crate::body_pair::{BodyPair, body_pair_at, on_bodies};
use crate::impulse::sum_impulses;
use compact_table::compact_at;
use kapitsa_joint::{GeneralizedImpulse, SolverMass, mass_at, paired_at, put_paired};

#[tactic(auto, unfolding(crate::specs::Operator::response_of))]
pub fn response(mass: SolverMass, impulse: GeneralizedImpulse) -> GeneralizedImpulse
    ensures { result ≡ response_of mass impulse }
{
    let inertia = mass.inverse_inertia;
    let linear = impulse.linear;
    let angular = impulse.angular;
    GeneralizedImpulse {
        linear: linear.scale(mass.inverse_mass),
        angular: inertia.mul_vector(angular),
    }
}

fn respond_at(masses: &[f64], b: usize, body_impulses: &mut [f64])
    requires { (10 * b + 10 ≤ length masses.now) × (6 * b + 6 ≤ length body_impulses.old) }
    ensures { body_impulses.new ≡ put_paired_of body_impulses.old b (response_of (mass_of masses.now b) (paired_of body_impulses.old b)) }
{
    let responded = response(mass_at(masses, b), paired_at(body_impulses, b));
    put_paired(body_impulses, b, responded);
}

// The response of every body in place of its impulse.
fn respond(masses: &[f64], bodies: usize, body_impulses: &mut [f64])
    requires { (10 * bodies ≤ length masses.now) × (length body_impulses.old ≡ 6 * bodies) }
    ensures { Paired (λ b. response_of (mass_of masses.now b) (paired_of body_impulses.old b)) bodies body_impulses.new }
{
    for b in 0..bodies {
        respond_at(masses, b, body_impulses);
    }
}

#[tactic(auto, unfolding(crate::specs::Operator::row_value_of))]
fn row_value(jacobians: &[f64], links: &[u32], i: usize, pair: BodyPair) -> f64
    requires { (12 * i + 12 ≤ length jacobians.now) × (2 * i + 2 ≤ length links.now) }
    ensures { result ≡ row_value_of (compact_of jacobians.now links.now i) pair.of_a pair.of_b }
{
    let j = compact_at(jacobians, links, i);
    let linear_a = j.linear_a;
    let angular_a = j.angular_a;
    let linear_b = j.linear_b;
    let angular_b = j.angular_b;
    let p = pair.of_a;
    let q = pair.of_b;
    linear_a.dot(p.linear)
        + angular_a.dot(p.angular)
        + linear_b.dot(q.linear)
        + angular_b.dot(q.angular)
}

// The value of row `i`, on the bodies of `pair`. The answer is `before` and `vector` times the value.
fn put_value(
    jacobians: &[f64],
    links: &[u32],
    i: usize,
    pair: BodyPair,
    vector: &[f64],
    before: f64,
    product: &mut [f64],
) -> f64
    requires { (12 * i + 12 ≤ length jacobians.now) × (2 * i + 2 ≤ length links.now) × (i < length vector.now) × (i < length product.old) }
    ensures product_after { product.new ≡ set product.old i (row_value_of (compact_of jacobians.now links.now i) pair.of_a pair.of_b) }
    ensures value { result ≡ add binary64 before (mul binary64 (get_or vector.now i nan) (row_value_of (compact_of jacobians.now links.now i) pair.of_a pair.of_b)) }
{
    let value = row_value(jacobians, links, i, pair);
    product[i] = value;
    before + vector[i] * value
}

// Of the rows of a run: the sum of `vector` times the product up to them, and the row behind the last.
#[derive(Clone, Copy)]
pub struct RunValues {
    pub sum: f64,
    pub end: usize,
}

// The values of the rows from `first` on that are on its bodies.
fn value_run(
    jacobians: &[f64],
    links: &[u32],
    responses: &[f64],
    vector: &[f64],
    first: usize,
    before: f64,
    product: &mut [f64],
) -> RunValues
    requires product_in_bounds { (12 * length product.old ≤ length jacobians.now) × (2 * length product.old ≤ length links.now) × (length vector.now ≡ length product.old) × (first < length product.old) }
    requires first_in_bounds { (6 * (get_or links.now (2 * first) 0) + 6 ≤ length responses.now) × (6 * (get_or links.now (2 * first + 1) 0) + 6 ≤ length responses.now) }
    requires valued { Valued (λ i. value_in (compact_of jacobians.now links.now i) responses.now) vector.now first product.old before }
    ensures { (first < result.end) × Valued (λ i. value_in (compact_of jacobians.now links.now i) responses.now) vector.now result.end product.new result.sum }
{
    let pair = body_pair_at(links, first, responses);
    let mut sum = put_value(jacobians, links, first, pair, vector, before, product);
    for i in first + 1..product.len() {
        if !on_bodies(links, i, pair) {
            return RunValues { sum: sum, end: i };
        }
        sum = put_value(jacobians, links, i, pair, vector, sum, product);
    }
    RunValues {
        sum: sum,
        end: product.len(),
    }
}

// The value of every row, and `vector` times them.
fn values(
    jacobians: &[f64],
    links: &[u32],
    bodies: usize,
    responses: &[f64],
    vector: &[f64],
    product: &mut [f64],
) -> f64
    requires product_in_bounds { (12 * length product.old ≤ length jacobians.now) × (2 * length product.old ≤ length links.now) }
    requires responses_len { (length responses.now ≡ 6 * bodies) × (length vector.now ≡ length product.old) × Linked links.now (length product.old) bodies }
    ensures product_after { product.new ≡ tabulate (λ i. value_in (compact_of jacobians.now links.now i) responses.now) (length product.old) }
    ensures value { result ≡ dot_product_of vector.now product.new }
{
    let mut sum = 0.0;
    let mut i = 0;
    while i < product.len() {
        let run = value_run(jacobians, links, responses, vector, i, sum, product);
        sum = run.sum;
        i = run.end;
    }
    sum
}

// J M^-1 J^T on `vector`, with six numbers a body to work in: impulses, then responses in their place. The answer is `vector` times the product:
// it is finite only where the whole product is (proofs/Dots.antt).
pub fn global_velocity_matrix_vector(
    jacobians: &[f64],
    links: &[u32],
    masses: &[f64],
    vector: &[f64],
    bodies: usize,
    body_impulses: &mut [f64],
    product: &mut [f64],
) -> f64
    requires vector_in_bounds { (12 * length vector.now ≤ length jacobians.now) × (2 * length vector.now ≤ length links.now) }
    requires bodies_in_bounds { (10 * bodies ≤ length masses.now) × (length body_impulses.old ≡ 6 * bodies) × (length product.old ≡ length vector.now) }
    requires linked { Linked links.now (length vector.now) bodies }
    ensures { Multiplied (compact_system (length vector.now) bodies jacobians.now links.now masses.now) vector.now
        result body_impulses.new product.new }
{
    sum_impulses(jacobians, links, vector, bodies, body_impulses);
    respond(masses, bodies, body_impulses);
    values(jacobians, links, bodies, body_impulses, vector, product)
}
