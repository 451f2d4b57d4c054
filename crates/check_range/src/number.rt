// One number, vector, matrix, row or mass against refusal 18: zero, or from 2^-150 to 2^150 in size.
ghost use Rattle.std.specs.Prelude.{◌≡◌};
ghost use Rattle.check_range.specs.Range.{in_range, vec_in_range, mat_in_range, jacobian_in_range, mass_in_range};

use kapitsa_joint::{RowJacobian, SolverMass};
use kapitsa_math::{Mat3, Vec3};

// By whole numbers on the bits: a processor told to take subnormal numbers for zero would change a comparison of doubles.
pub fn in_range(x: f64) -> bool
    ensures { result ≡ in_range x }
{
    let size = binary64::to_bits(x) % 0x8000_0000_0000_0000; // without the sign
    let sized = (0x3690_0000_0000_0000 <= size) & (size <= 0x4950_0000_0000_0000); // 2^-150, 2^150
    (size == 0) | sized
}

#[tactic(auto, unfolding(crate::specs::Range::vec_in_range))]
fn vec_in_range(v: Vec3) -> bool
    ensures { result ≡ vec_in_range v }
{
    in_range(v.x) & in_range(v.y) & in_range(v.z)
}

#[tactic(auto, unfolding(crate::specs::Range::mat_in_range))]
fn mat_in_range(m: Mat3) -> bool
    ensures { result ≡ mat_in_range m }
{
    let x = m.x;
    let y = m.y;
    let z = m.z;
    vec_in_range(x) & vec_in_range(y) & vec_in_range(z)
}

#[tactic(auto, unfolding(crate::specs::Range::jacobian_in_range))]
pub fn jacobian_in_range(j: RowJacobian) -> bool
    ensures { result ≡ jacobian_in_range j }
{
    let linear_a = j.linear_a;
    let angular_a = j.angular_a;
    let linear_b = j.linear_b;
    let angular_b = j.angular_b;
    vec_in_range(linear_a)
        & vec_in_range(angular_a)
        & vec_in_range(linear_b)
        & vec_in_range(angular_b)
}

#[tactic(auto, unfolding(crate::specs::Range::mass_in_range))]
pub fn mass_in_range(m: SolverMass) -> bool
    ensures { result ≡ mass_in_range m }
{
    let inertia = m.inverse_inertia;
    in_range(m.inverse_mass) & mat_in_range(inertia)
}
