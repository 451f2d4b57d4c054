// The two bodies of a row and the six numbers that a slice has for each: held while the rows that follow are on the same two.
ghost use Rattle.std.specs.Prelude.{◌≡◌, ◌+◌, ◌*◌, ◌≤◌, length, get_or};
ghost use Rattle.mass_operator.specs.BodyPair.{body_pair_of, put_body_pair_of, on_bodies};

use kapitsa_joint::{GeneralizedImpulse, paired_at, put_paired};
use loops::wide;

#[derive(Clone, Copy)]
pub struct BodyPair {
    pub body_a: u32,
    pub body_b: u32,
    pub of_a: GeneralizedImpulse,
    pub of_b: GeneralizedImpulse,
}

#[tactic(auto, unfolding(crate::specs::BodyPair::body_pair_of))]
pub fn body_pair_at(links: &[u32], i: usize, impulses: &[f64]) -> BodyPair
    requires i_in_bounds { 2 * i + 2 ≤ length links.now }
    requires i_in_bounds_2 { (6 * (get_or links.now (2 * i) 0) + 6 ≤ length impulses.now) × (6 * (get_or links.now (2 * i + 1) 0) + 6 ≤ length impulses.now) }
    ensures { result ≡ body_pair_of links.now i impulses.now }
{
    let link = 2 * i;
    let body_a = links[link];
    let body_b = links[link + 1];
    BodyPair {
        body_a: body_a,
        body_b: body_b,
        of_a: paired_at(impulses, wide(body_a)),
        of_b: paired_at(impulses, wide(body_b)),
    }
}

#[tactic(auto, unfolding(crate::specs::BodyPair::put_body_pair_of))]
pub fn put_body_pair(impulses: &mut [f64], pair: BodyPair)
    requires { (6 * pair.body_a + 6 ≤ length impulses.old) × (6 * pair.body_b + 6 ≤ length impulses.old) }
    ensures { impulses.new ≡ put_body_pair_of impulses.old pair }
{
    put_paired(impulses, wide(pair.body_a), pair.of_a);
    put_paired(impulses, wide(pair.body_b), pair.of_b);
}

// Whether row `i` is on the two bodies.
#[tactic(auto, unfolding(crate::specs::BodyPair::on_bodies))]
pub fn on_bodies(links: &[u32], i: usize, pair: BodyPair) -> bool
    requires { 2 * i + 2 ≤ length links.now }
    ensures { result ≡ on_bodies links.now i pair }
{
    let link = 2 * i;
    (links[link] == pair.body_a) & (links[link + 1] == pair.body_b)
}
