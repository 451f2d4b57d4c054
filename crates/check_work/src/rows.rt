// Every row's value and its value on sizes: the mass operator on the list and on its sizes, side by side.
// The rows are read where they are lent: each is read twice, and a table of Jacobians would cost a pass of its own.
ghost use Rattle.std.specs.Prelude.{◌≡◌, ◌*◌, ◌≤◌, length};
ghost use Rattle.loops.specs.Cleared.{Free};
ghost use Rattle.check_work.specs.Rows.{Valid, Measured};

use crate::impulse::sum_impulses;
use crate::response::respond;
use crate::value::fill_values;

// With six numbers a body to work in, and six more: impulses, then responses in their place.
pub fn measure_rows(
    bodies: usize,
    numbers: &[f64],
    words: &[u32],
    masses: &[f64],
    multipliers: &[f64],
    impulses: &mut [f64],
    size_impulses: &mut [f64],
    values: &mut [f64],
    sizes: &mut [f64],
)
    requires multipliers_in_bounds { (27 * length multipliers.now ≤ length numbers.now) × (8 * length multipliers.now ≤ length words.now) × (10 * bodies ≤ length masses.now) }
    requires impulses_len { (length impulses.old ≡ 6 * bodies) × (length size_impulses.old ≡ 6 * bodies) × (length values.old ≡ length multipliers.now) × (length sizes.old ≡ length multipliers.now) }
    requires valid { Valid (length multipliers.now) bodies numbers.now words.now }
    ensures measured { Measured bodies numbers.now words.now masses.now multipliers.now values.new sizes.new }
    ensures free { Free impulses.old impulses.new × Free size_impulses.old size_impulses.new }
{
    sum_impulses(numbers, words, multipliers, bodies, impulses, size_impulses);
    respond(masses, bodies, impulses, size_impulses);
    fill_values(
        numbers,
        words,
        bodies,
        impulses,
        size_impulses, // the responses on sizes
        values,
        sizes,
    );
}
