// The centres of the links after the impulses: next_center of solver_mass.rs.
ghost use Rattle.std.specs.Prelude.{◌≡◌, ◌+◌, ◌*◌, ◌≤◌, length};
ghost use Rattle.kapitsa_math.specs.Lent.{vec_of};
ghost use Rattle.kapitsa_joint.specs.Mass.{mass_of};
ghost use Rattle.kapitsa_joint.specs.Impulse.{paired_of};
ghost use Rattle.kapitsa_joint.specs.Centre.{centres_in, flat_centres};
ghost use Rattle.joint_refusals.specs.Refusals.{centres_finite};
ghost use Rattle.position.specs.Centres.{still_of, next_centre, moved_at, moved_by};

use kapitsa_joint::{GeneralizedImpulse, SolverMass, mass_at, paired_at};
use kapitsa_math::{Vec3, put_vec, vec_at};

// Linear and angular numbers are tested side by side, as work memory has them.
fn is_still(impulse: GeneralizedImpulse) -> bool
    ensures { result ≡ still_of impulse }
{
    let p = impulse.linear;
    let q = impulse.angular;
    ((p.x == 0.0) & (q.x == 0.0)) & ((p.y == 0.0) & (q.y == 0.0)) & ((p.z == 0.0) & (q.z == 0.0))
}

fn next_center(mass: SolverMass, impulse: GeneralizedImpulse, center: Vec3) -> Vec3
    ensures { result ≡ next_centre mass impulse center }
{
    let linear = impulse.linear;
    center.add(linear.scale(mass.inverse_mass))
}

// The centre of body b. Where its six impulses are zero its bits stay: −0.0 + 0.0 would be +0.0.
fn moved_at(masses: &[f64], impulses: &[f64], centres: &[f64], b: usize) -> Vec3
    requires { (10 * b + 10 ≤ length masses.now) × (6 * b + 6 ≤ length impulses.now) × (3 * b + 3 ≤ length centres.now) }
    ensures { result ≡ moved_at (mass_of masses.now) (paired_of impulses.now) (λ b. vec_of centres.now (3 * b)) b }
{
    let impulse = paired_at(impulses, b);
    let center = vec_at(centres, 3 * b);
    if is_still(impulse) {
        return center;
    }
    next_center(mass_at(masses, b), impulse, center)
}

// Refusal 17, of the centres: true where it does not apply.
pub fn moved_finite(masses: &[f64], impulses: &[f64], centres: &[f64], bodies: usize) -> bool
    requires { (10 * bodies ≤ length masses.now) × (6 * bodies ≤ length impulses.now) × (3 * bodies ≤ length centres.now) }
    ensures { result ≡ centres_finite (moved_by (mass_of masses.now) (paired_of impulses.now) (centres_in bodies centres.now)) }
{
    (0..bodies).all(|b| moved_at(masses, impulses, centres, b).is_finite())
}

pub fn move_centres(
    masses: &[f64],
    impulses: &[f64],
    centres: &[f64],
    bodies: usize,
    new_centres: &mut [f64],
)
    requires { (10 * bodies ≤ length masses.now) × (6 * bodies ≤ length impulses.now) × (3 * bodies ≤ length centres.now) × (length new_centres.old ≡ 3 * bodies) }
    ensures { new_centres.new ≡ flat_centres (moved_by (mass_of masses.now) (paired_of impulses.now) (centres_in bodies centres.now)) }
{
    for b in 0..bodies {
        put_vec(new_centres, 3 * b, moved_at(masses, impulses, centres, b));
    }
}
