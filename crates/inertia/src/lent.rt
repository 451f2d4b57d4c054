// Matrices in lent slices of nine doubles, by columns, and the inverse of one: what C and a job's masses hold.
ghost use Rattle.std.specs.Prelude.{◌≡◌, length};
ghost use Rattle.inertia.specs.Lent.{mat_of, nine_of, nines_fit, InverseTold};

use crate::inverse::inverse_spd;
use kapitsa_math::{Mat3, put_vec, vec_at};

#[tactic(auto, unfolding(crate::specs::Lent::mat_of))]
pub fn mat_at(numbers: &[f64]) -> Mat3
    requires { length numbers.now ≡ 9 }
    ensures { result ≡ mat_of numbers.now }
{
    Mat3 {
        x: vec_at(numbers, 0),
        y: vec_at(numbers, 3),
        z: vec_at(numbers, 6),
    }
}

pub fn put_mat(out: &mut [f64], m: Mat3)
    requires { length out.old ≡ 9 }
    ensures { out.new ≡ nine_of m }
{
    put_vec(out, 0, m.x);
    put_vec(out, 3, m.y);
    put_vec(out, 6, m.z);
}

// Refusal 3: true where it does not apply.
#[tactic(auto, unfolding(crate::specs::Lent::nines_fit))]
fn nines_fit(inertia: &[f64], inverse: &[f64]) -> bool
    ensures { result ≡ nines_fit inertia.now inverse.now }
{
    (inertia.len() == 9) & (inverse.len() == 9)
}

// 0 with the inverse, or the number of a refusal (3, 21, 22, 23 or 12), and then nothing is written.
pub fn inverse_in(inertia: &[f64], inverse: &mut [f64]) -> u32
    ensures { InverseTold inertia.now inverse.old record { number = result; inverse = inverse.new } }
{
    if !nines_fit(inertia, inverse) {
        return 3;
    }
    match inverse_spd(mat_at(inertia)) {
        Ok(m) => {
            put_mat(inverse, m);
            0
        }
        Err(error) => error.number(),
    }
}
