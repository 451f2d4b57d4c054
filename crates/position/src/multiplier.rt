// The accumulated multipliers, or impulses: tested before anything is written, then gained. `place` is where a row has its number: 24, or 25.
ghost use Rattle.std.specs.Prelude.{◌≡◌, ◌+◌, ◌*◌, ◌<◌, ◌≤◌, length, get_or};
ghost use Rattle.std.specs.Float.{nan};
ghost use Rattle.position.specs.Multipliers.{gain_of, gains_finite, gained};

fn gain(place: usize, numbers: &[f64], solution: &[f64], i: usize) -> f64
    requires { (place < 27) × (27 * i + 27 ≤ length numbers.now) × (i + 1 ≤ length solution.now) }
    ensures { result ≡ gain_of place numbers.now solution.now i }
{
    numbers[27 * i + place] + solution[i]
}

// Refusal 17 of the multipliers: true where it does not apply.
pub fn multipliers_finite(place: usize, numbers: &[f64], solution: &[f64]) -> bool
    requires { (place < 27) × (27 * length solution.now ≤ length numbers.now) }
    ensures { result ≡ gains_finite place numbers.now solution.now (length solution.now) }
{
    (0..solution.len()).all(|i| binary64::is_finite(gain(place, numbers, solution, i)))
}

pub fn add_multipliers(place: usize, numbers: &mut [f64], solution: &[f64])
    requires { (place < 27) × (27 * length solution.now ≤ length numbers.old) }
    ensures { numbers.new ≡ gained place numbers.old solution.now (length solution.now) }
{
    for i in 0..solution.len() {
        numbers[27 * i + place] = gain(place, numbers, solution, i);
    }
}
