// 4, 7 and 18 of a row in one look at it, without a branch: nearly always all pass.
ghost use Rattle.std.specs.Prelude.{◌≡◌, ◌+◌, ◌*◌, ◌≤◌, length, get_or};
ghost use Rattle.std.specs.Float.{nan};
ghost use Rattle.loops.specs.Every.{every};
ghost use Rattle.kapitsa_joint.specs.Row.{row_of};
ghost use Rattle.check_range.specs.Closing.{error_in, GivenFrom};
ghost use Rattle.check_refusals.specs.Sound.{row_sound};

use check_range::row_in_range_at;
use joint_refusals::{bodies_below, row_words_fit, scalars_finite, scalars_in_range};
use kapitsa_joint::{Kind, scalars_at, words_at};
use kapitsa_math::vec_at;

#[tactic(auto, unfolding(crate::specs::Sound::row_sound, kapitsa_joint::specs::Row::row_of))]
fn row_sound_at(
    kind: Kind,
    numbers: &[f64],
    words: &[u32],
    given: &[f64],
    multipliers: &[f64],
    i: usize,
    bodies: u32,
) -> bool
    requires { (27 * i + 27 ≤ length numbers.now) × (8 * i + 8 ≤ length words.now) × (i + 1 ≤ length multipliers.now) × GivenFrom kind (length given.now) (i + 1) }
    ensures { result ≡ row_sound bodies (row_of numbers.now words.now i) (error_in kind numbers.now given.now i) (get_or multipliers.now i nan) }
{
    let w = words_at(words, 8 * i);
    let s = scalars_at(numbers, 27 * i + 15);
    let position_angular_a = vec_at(numbers, 27 * i + 6);
    row_words_fit(w)
        & bodies_below(w, bodies)
        & position_angular_a.is_finite()
        & scalars_finite(s)
        & scalars_in_range(s)
        & row_in_range_at(kind, numbers, words, given, multipliers, i)
}

// It goes on where a row is not: a loop that is never left is the faster one.
pub fn rows_sound(
    kind: Kind,
    numbers: &[f64],
    words: &[u32],
    given: &[f64],
    multipliers: &[f64],
    rows: usize,
    bodies: u32,
) -> bool
    requires { (27 * rows ≤ length numbers.now) × (8 * rows ≤ length words.now) × (rows ≤ length multipliers.now) × GivenFrom kind (length given.now) rows }
    ensures { result ≡ every (λ i. row_sound bodies (row_of numbers.now words.now i) (error_in kind numbers.now given.now i) (get_or multipliers.now i nan)) rows }
{
    let mut all = true;
    for i in 0..rows {
        all = all & row_sound_at(kind, numbers, words, given, multipliers, i, bodies);
    }
    all
}
