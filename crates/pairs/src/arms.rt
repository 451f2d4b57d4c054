// The arms of a row: with what it acts on each of its two bodies. The higher row of a pair is the same for all pairs of a row, so its share of SolverMass::cross is formed once.
ghost use Rattle.std.specs.Prelude.{◌≡◌, ◌+◌, ◌*◌, ◌<◌, ◌≤◌, length};
ghost use Rattle.kapitsa_joint.specs.Mass.{mass_of};
ghost use Rattle.compact_table.specs.Compact.{compact_of, Linked};
ghost use Rattle.pairs.specs.Gather.{arm_at, arms_of};

use compact_table::compact_at;
use kapitsa_joint::mass_at;
use kapitsa_math::Vec3;
use loops::wide;

// At one body; `response` is the body's inverse inertia times the angular part.
#[derive(Clone, Copy)]
pub struct Arm {
    pub body: u32,
    pub inverse_mass: f64,
    pub linear: Vec3,
    pub response: Vec3,
}

#[derive(Clone, Copy)]
pub struct Arms {
    pub a: Arm,
    pub b: Arm,
}

fn arm_at(masses: &[f64], body: u32, linear: Vec3, angular: Vec3) -> Arm
    requires { 10 * body + 10 ≤ length masses.now }
    ensures { result ≡ arm_at (mass_of masses.now) body linear angular }
{
    let mass = mass_at(masses, wide(body));
    let inertia = mass.inverse_inertia;
    Arm {
        body: body,
        inverse_mass: mass.inverse_mass,
        linear: linear,
        response: inertia.mul_vector(angular),
    }
}

// The arms of row `i`.
pub fn arms_at(
    jacobians: &[f64],
    links: &[u32],
    masses: &[f64],
    rows: usize,
    bodies: usize,
    i: usize,
) -> Arms
    requires rows_in_bounds { (12 * rows ≤ length jacobians.now) × (2 * rows ≤ length links.now) × (10 * bodies ≤ length masses.now) }
    requires linked { Linked links.now rows bodies }
    requires i_lt_rows { i < rows }
    ensures { result ≡ arms_of (mass_of masses.now) (compact_of jacobians.now links.now i) }
{
    let row = compact_at(jacobians, links, i);
    Arms {
        a: arm_at(masses, row.body_a, row.linear_a, row.angular_a),
        b: arm_at(masses, row.body_b, row.linear_b, row.angular_b),
    }
}
