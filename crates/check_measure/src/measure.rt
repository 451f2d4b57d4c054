// A row's reach, and every row's: how far its gap may be, the rounded |r| + E.
ghost use Rattle.std.specs.Prelude.{◌≡◌, ◌*◌, ◌≤◌, length};
ghost use Rattle.loops.specs.Tabulate.{tabulate};
ghost use Rattle.check_measure.specs.Verdict.{radius_factor, reach_of};
ghost use Rattle.check_range.specs.Closing.{error_in, GivenFrom};
ghost use Rattle.check_measure.specs.Rows.{reach_in};

use check_range::error_at;
use kapitsa_joint::Kind;

// (n+16) * 2^-51, in the radius E = W * ((n+16) * 2^-51).
pub fn radius_factor(rows: usize) -> f64
    requires { rows ≤ 512 }
    ensures { result ≡ radius_factor rows }
{
    (rows + 16) as f64 * 4.440892098500626e-16
}

// `value` is the row's value and `size` the same on sizes.
#[tactic(auto, unfolding(crate::specs::Verdict::reach_of, crate::specs::Verdict::radius_of, crate::specs::Verdict::weight_of, crate::specs::Verdict::measured_of))]
pub fn reach(rows: usize, error: f64, value: f64, size: f64) -> f64
    requires { rows ≤ 512 }
    ensures { result ≡ reach_of rows error value size }
{
    let measured = -error - value;
    let weight = binary64::abs(error) + size;
    let radius = weight * radius_factor(rows);
    binary64::abs(measured) + radius
}

// Every row's reach, in place of its value.
pub fn measure_reaches(
    kind: Kind,
    rows: usize,
    numbers: &[f64],
    given: &[f64],
    sizes: &[f64],
    values: &mut [f64],
)
    requires { (rows ≤ 512) × (27 * rows ≤ length numbers.now) × (rows ≤ length sizes.now) × (length values.old ≡ rows) × GivenFrom kind (length given.now) rows }
    ensures { values.new ≡ tabulate (reach_in (error_in kind numbers.now given.now) values.old sizes.now rows) rows }
{
    for i in 0..rows {
        values[i] = reach(rows, error_at(kind, numbers, given, i), values[i], sizes[i]);
    }
}
