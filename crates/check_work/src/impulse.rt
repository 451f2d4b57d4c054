// The impulses of the list, and of its sizes, in one pass over the lent rows.
ghost use Rattle.std.specs.Prelude.{◌≡◌, ◌+◌, ◌*◌, ◌≤◌, length};
ghost use Rattle.binary64.specs.Order.{absolute};
ghost use Rattle.mass_operator.specs.Flat.{coefficients};
ghost use Rattle.mass_operator.specs.Lent.{Summing};
ghost use Rattle.check_work.specs.Rows.{rows_in, row_sizes_in, sizes_in, added_at, added_row, Valid};

use check_measure::row_size;
use kapitsa_joint::{RowJacobian, jacobian_at, paired_at, put_paired};
use kapitsa_math::Vec3;
use loops::wide;
use mass_operator::add_generalized_impulse;

#[tactic(auto, unfolding(crate::specs::Rows::added_at))]
fn add_at(impulses: &mut [f64], body: u32, linear: Vec3, angular: Vec3, coefficient: f64)
    requires { 6 * body + 6 ≤ length impulses.old }
    ensures { impulses.new ≡ added_at impulses.old body linear angular coefficient }
{
    let b = wide(body);
    let before = paired_at(impulses, b);
    put_paired(
        impulses,
        b,
        add_generalized_impulse(before, linear, angular, coefficient),
    );
}

#[tactic(auto, unfolding(crate::specs::Rows::added_row))]
fn add_row(j: RowJacobian, coefficient: f64, impulses: &mut [f64])
    requires { (6 * j.body_a + 6 ≤ length impulses.old) × (6 * j.body_b + 6 ≤ length impulses.old) }
    ensures { impulses.new ≡ added_row impulses.old j coefficient }
{
    let linear_a = j.linear_a;
    let angular_a = j.angular_a;
    let linear_b = j.linear_b;
    let angular_b = j.angular_b;
    add_at(impulses, j.body_a, linear_a, angular_a, coefficient);
    add_at(impulses, j.body_b, linear_b, angular_b, coefficient);
}

// Row i, and its sizes.
fn add_both(
    numbers: &[f64],
    words: &[u32],
    i: usize,
    coefficient: f64,
    impulses: &mut [f64],
    size_impulses: &mut [f64],
)
    requires i_in_bounds { (27 * i + 27 ≤ length numbers.now) × (8 * i + 8 ≤ length words.now) }
    requires body_a_in_bounds { (6 * (rows_in numbers.now words.now i).body_a + 6 ≤ length impulses.old) × (6 * (rows_in numbers.now words.now i).body_b + 6 ≤ length impulses.old) }
    requires body_a_in_bounds_2 { (6 * (rows_in numbers.now words.now i).body_a + 6 ≤ length size_impulses.old) × (6 * (rows_in numbers.now words.now i).body_b + 6 ≤ length size_impulses.old) }
    ensures impulses_after { impulses.new ≡ added_row impulses.old (rows_in numbers.now words.now i) coefficient }
    ensures size_impulses_after { size_impulses.new ≡ added_row size_impulses.old (row_sizes_in numbers.now words.now i) (absolute coefficient) }
{
    let j = jacobian_at(numbers, words, i);
    add_row(j, coefficient, impulses);
    add_row(row_size(j), binary64::abs(coefficient), size_impulses);
}

// The impulses of every body, rows ascending from +0.0.
pub fn sum_impulses(
    numbers: &[f64],
    words: &[u32],
    multipliers: &[f64],
    bodies: usize,
    impulses: &mut [f64],
    size_impulses: &mut [f64],
)
    requires multipliers_in_bounds { (27 * length multipliers.now ≤ length numbers.now) × (8 * length multipliers.now ≤ length words.now) }
    requires impulses_len { (length impulses.old ≡ 6 * bodies) × (length size_impulses.old ≡ 6 * bodies) }
    requires valid { Valid (length multipliers.now) bodies numbers.now words.now }
    ensures summing { Summing (rows_in numbers.now words.now) (coefficients multipliers.now) bodies (length multipliers.now) impulses.new }
    ensures summing_2 { Summing (row_sizes_in numbers.now words.now) (sizes_in multipliers.now) bodies (length multipliers.now) size_impulses.new }
{
    loops::clear(impulses);
    loops::clear(size_impulses);
    for i in 0..multipliers.len() {
        add_both(numbers, words, i, multipliers[i], impulses, size_impulses);
    }
}
