// The largest reach of each dimension: document 02, h.
ghost use Rattle.std.specs.Prelude.{◌≡◌, ◌+◌, ◌*◌, ◌≤◌, length, get_or};
ghost use Rattle.std.specs.Float.{nan};
ghost use Rattle.kapitsa_joint.specs.Tolerance.{dimension_of};
ghost use Rattle.kapitsa_joint.specs.Maxima.{maxima_by};

use kapitsa_joint::{Maxima, dimension};

pub fn largest_reaches(words: &[u32], reaches: &[f64], rows: usize) -> Maxima
    requires { (8 * rows ≤ length words.now) × (rows ≤ length reaches.now) }
    ensures { result ≡ maxima_by (λ i. dimension_of (get_or words.now (8 * i + 1) 0)) (λ i. get_or reaches.now i nan) rows }
{
    let mut maxima = Maxima {
        linear: 0.0,
        angular: 0.0,
    };
    for i in 0..rows {
        maxima = maxima.raised(dimension(words[8 * i + 1]), reaches[i]);
    }
    maxima
}
