// A vector in a lent slice of doubles: three in a row, or at every second place, so that two vectors stand side by side.
ghost use Rattle.std.specs.Prelude.{◌≡◌, ◌+◌, ◌≤◌, length};
ghost use Rattle.kapitsa_math.specs.Lent.{vec_of, put_vec_of, spread_of, put_spread_of};

use crate::vector::Vec3;

#[tactic(auto, unfolding(crate::specs::Lent::vec_of))]
pub fn vec_at(numbers: &[f64], at: usize) -> Vec3
    requires { at + 3 ≤ length numbers.now }
    ensures { result ≡ vec_of numbers.now at }
{
    Vec3 {
        x: numbers[at],
        y: numbers[at + 1],
        z: numbers[at + 2],
    }
}

#[tactic(auto, unfolding(crate::specs::Lent::put_vec_of))]
pub fn put_vec(out: &mut [f64], at: usize, v: Vec3)
    requires { at + 3 ≤ length out.old }
    ensures { out.new ≡ put_vec_of out.old at v }
{
    out[at] = v.x;
    out[at + 1] = v.y;
    out[at + 2] = v.z;
}

#[tactic(auto, unfolding(crate::specs::Lent::spread_of))]
pub fn spread_at(numbers: &[f64], at: usize) -> Vec3
    requires { at + 5 ≤ length numbers.now }
    ensures { result ≡ spread_of numbers.now at }
{
    Vec3 {
        x: numbers[at],
        y: numbers[at + 2],
        z: numbers[at + 4],
    }
}

#[tactic(auto, unfolding(crate::specs::Lent::put_spread_of))]
pub fn put_spread(out: &mut [f64], at: usize, v: Vec3)
    requires { at + 5 ≤ length out.old }
    ensures { out.new ≡ put_spread_of out.old at v }
{
    out[at] = v.x;
    out[at + 2] = v.y;
    out[at + 4] = v.z;
}
