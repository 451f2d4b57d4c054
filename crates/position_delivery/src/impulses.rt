// The impulses as document 01 delivers them, linear then angular, from the order of the work memory.
ghost use Rattle.std.specs.Prelude.{◌≡◌, ◌*◌, ◌≤◌, length};
ghost use Rattle.kapitsa_joint.specs.Impulse.{paired_of};
ghost use Rattle.mass_operator.specs.Flat.{flat_impulses};

use kapitsa_joint::{paired_at, put_impulse};

pub fn deliver_impulses(body_impulses: &[f64], bodies: usize, impulses: &mut [f64])
    requires { (6 * bodies ≤ length body_impulses.now) × (length impulses.old ≡ 6 * bodies) }
    ensures { impulses.new ≡ flat_impulses (paired_of body_impulses.now) bodies }
{
    for b in 0..bodies {
        put_impulse(impulses, b, paired_at(body_impulses, b));
    }
}
