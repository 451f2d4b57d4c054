// GeneralizedImpulse in work memory: of a body linear x, angular x, linear y, angular y, linear z, angular z, so that the machine takes both at once.
ghost use Rattle.std.specs.Prelude.{◌≡◌, ◌+◌, ◌*◌, ◌≤◌, length};
ghost use Rattle.kapitsa_joint.specs.Impulse.{paired_of, put_paired_of};

use crate::impulse::GeneralizedImpulse;
use kapitsa_math::{put_spread, spread_at};

#[tactic(auto, unfolding(crate::specs::Impulse::paired_of))]
pub fn paired_at(impulses: &[f64], body: usize) -> GeneralizedImpulse
    requires { 6 * body + 6 ≤ length impulses.now }
    ensures { result ≡ paired_of impulses.now body }
{
    let at = 6 * body;
    GeneralizedImpulse {
        linear: spread_at(impulses, at),
        angular: spread_at(impulses, at + 1),
    }
}

#[tactic(auto, using(kapitsa_math::proofs::Stored::put_spread_long), unfolding(crate::specs::Impulse::put_paired_of))]
pub fn put_paired(impulses: &mut [f64], body: usize, impulse: GeneralizedImpulse)
    requires { 6 * body + 6 ≤ length impulses.old }
    ensures { impulses.new ≡ put_paired_of impulses.old body impulse }
{
    let at = 6 * body;
    let linear = impulse.linear;
    let angular = impulse.angular;
    put_spread(impulses, at, linear);
    put_spread(impulses, at + 1, angular);
}
