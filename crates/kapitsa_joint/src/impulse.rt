// GeneralizedImpulse of solver.rs: six doubles a body as they are delivered, linear then angular. Work memory has another order: paired.rt.
ghost use Rattle.std.specs.Prelude.{◌≡◌, ◌+◌, ◌*◌, ◌≤◌, length};
ghost use Rattle.kapitsa_joint.specs.Impulse.{put_impulse_of};

use kapitsa_math::{Vec3, put_vec};

#[derive(Clone, Copy)]
pub struct GeneralizedImpulse {
    pub linear: Vec3,
    pub angular: Vec3,
}

#[tactic(auto, using(kapitsa_math::proofs::Stored::put_vec_long), unfolding(crate::specs::Impulse::put_impulse_of))]
pub fn put_impulse(impulses: &mut [f64], body: usize, impulse: GeneralizedImpulse)
    requires { 6 * body + 6 ≤ length impulses.old }
    ensures { impulses.new ≡ put_impulse_of impulses.old body impulse }
{
    let at = 6 * body;
    let linear = impulse.linear;
    let angular = impulse.angular;
    put_vec(impulses, at, linear);
    put_vec(impulses, at + 3, angular);
}
