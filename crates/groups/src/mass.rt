// A body whose ten mass numbers are all zero joins nothing.
ghost use Rattle.std.specs.Prelude.{◌≡◌, ◌+◌, ◌*◌, ◌≤◌, length};
ghost use Rattle.position.specs.Centres.{zero_of};
ghost use Rattle.kapitsa_joint.specs.Mass.{mass_of};
ghost use Rattle.groups.specs.Together.{massless};

use kapitsa_joint::{SolverMass, mass_at};
use kapitsa_math::Vec3;

fn is_zero(v: Vec3) -> bool
    ensures { result ≡ zero_of v }
{
    (v.x == 0.0) & (v.y == 0.0) & (v.z == 0.0)
}

// Both zeros are zero; a NaN is not.
fn has_no_mass(mass: SolverMass) -> bool
    ensures { result ≡ massless mass }
{
    let inertia = mass.inverse_inertia;
    (mass.inverse_mass == 0.0) & (is_zero(inertia.x) & is_zero(inertia.y) & is_zero(inertia.z))
}

pub fn is_massless(masses: &[f64], body: usize) -> bool
    requires { 10 * body + 10 ≤ length masses.now }
    ensures { result ≡ massless (mass_of masses.now body) }
{
    has_no_mass(mass_at(masses, body))
}
