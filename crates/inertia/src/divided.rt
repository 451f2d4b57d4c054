// The first half of factor_spd of matrix.rs: the scale of a matrix, its numbers divided by it, and whether these are symmetric.
ghost use Rattle.std.specs.Prelude.{◌≡◌};
ghost use Rattle.inertia.specs.Divided.{largest_of, scale_of, divided_vec_of, divided_of, near_of, symmetric_of};

use kapitsa_math::{Mat3, Vec3};

// 32 times the machine epsilon: 2^-47.
const SYMMETRY_TOLERANCE: f64 = 7.105427357601002e-15;

// The largest of `least` and the sizes of three numbers.
#[tactic(auto, unfolding(crate::specs::Divided::largest_of))]
fn largest(v: Vec3, least: f64) -> f64
    ensures { result ≡ largest_of v least }
{
    let s = v.abs();
    binary64::max(binary64::max(binary64::max(least, s.x), s.y), s.z)
}

#[tactic(auto, unfolding(crate::specs::Divided::scale_of))]
pub fn scale_of(m: Mat3) -> f64
    ensures { result ≡ scale_of m }
{
    let x = m.x;
    let y = m.y;
    let z = m.z;
    largest(z, largest(y, largest(x, 0.0)))
}

#[tactic(auto, unfolding(crate::specs::Divided::divided_vec_of))]
pub fn divided_vec(v: Vec3, scale: f64) -> Vec3
    ensures { result ≡ divided_vec_of v scale }
{
    Vec3 {
        x: v.x / scale,
        y: v.y / scale,
        z: v.z / scale,
    }
}

#[tactic(auto, unfolding(crate::specs::Divided::divided_of))]
pub fn divided(m: Mat3, scale: f64) -> Mat3
    ensures { result ≡ divided_of m scale }
{
    let x = m.x;
    let y = m.y;
    let z = m.z;
    Mat3 {
        x: divided_vec(x, scale),
        y: divided_vec(y, scale),
        z: divided_vec(z, scale),
    }
}

#[tactic(auto, unfolding(crate::specs::Divided::near_of))]
fn near(a: f64, b: f64) -> bool
    ensures { result ≡ near_of a b }
{
    !(SYMMETRY_TOLERANCE < binary64::abs(a - b))
}

// Refusal 22, on the divided numbers: true where it does not apply.
#[tactic(auto, unfolding(crate::specs::Divided::symmetric_of))]
pub fn symmetric(n: Mat3) -> bool
    ensures { result ≡ symmetric_of n }
{
    let x = n.x;
    let y = n.y;
    let z = n.z;
    near(x.y, y.x) & near(x.z, z.x) & near(y.z, z.y)
}
