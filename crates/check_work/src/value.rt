// The rows' values by the responses, and the same on sizes, in one pass over the lent rows.
ghost use Rattle.std.specs.Prelude.{◌≡◌, ◌+◌, ◌*◌, ◌≤◌, length};
ghost use Rattle.loops.specs.Tabulate.{tabulate};
ghost use Rattle.mass_operator.specs.Lent.{value_in};
ghost use Rattle.check_work.specs.Rows.{rows_in, row_sizes_in, Valid};

use check_measure::row_size;
use kapitsa_joint::{RowJacobian, jacobian_at, paired_at};
use loops::wide;

// A row's value, and its value on sizes.
#[derive(Clone, Copy)]
struct RowValue {
    value: f64,
    size: f64,
}

#[tactic(auto, unfolding(mass_operator::specs::Lent::value_in, mass_operator::specs::Operator::row_value_of))]
fn value_of(j: RowJacobian, responses: &[f64]) -> f64
    requires { (6 * j.body_a + 6 ≤ length responses.now) × (6 * j.body_b + 6 ≤ length responses.now) }
    ensures { result ≡ value_in j responses.now }
{
    let linear_a = j.linear_a;
    let angular_a = j.angular_a;
    let linear_b = j.linear_b;
    let angular_b = j.angular_b;
    let p = paired_at(responses, wide(j.body_a));
    let q = paired_at(responses, wide(j.body_b));
    linear_a.dot(p.linear)
        + angular_a.dot(p.angular)
        + linear_b.dot(q.linear)
        + angular_b.dot(q.angular)
}

fn value_at(
    numbers: &[f64],
    words: &[u32],
    i: usize,
    responses: &[f64],
    size_responses: &[f64],
) -> RowValue
    requires i_in_bounds { (27 * i + 27 ≤ length numbers.now) × (8 * i + 8 ≤ length words.now) }
    requires body_a_in_bounds { (6 * (rows_in numbers.now words.now i).body_a + 6 ≤ length responses.now) × (6 * (rows_in numbers.now words.now i).body_b + 6 ≤ length responses.now) }
    requires body_a_in_bounds_2 { (6 * (rows_in numbers.now words.now i).body_a + 6 ≤ length size_responses.now) × (6 * (rows_in numbers.now words.now i).body_b + 6 ≤ length size_responses.now) }
    ensures value_value { result.value ≡ value_in (rows_in numbers.now words.now i) responses.now }
    ensures size_value { result.size ≡ value_in (row_sizes_in numbers.now words.now i) size_responses.now }
{
    let j = jacobian_at(numbers, words, i);
    let value = value_of(j, responses);
    let size = value_of(row_size(j), size_responses);
    RowValue { value, size }
}

pub fn fill_values(
    numbers: &[f64],
    words: &[u32],
    bodies: usize,
    responses: &[f64],
    size_responses: &[f64],
    values: &mut [f64],
    sizes: &mut [f64],
)
    requires values_in_bounds { (27 * length values.old ≤ length numbers.now) × (8 * length values.old ≤ length words.now) × (length sizes.old ≡ length values.old) }
    requires responses_len { (length responses.now ≡ 6 * bodies) × (length size_responses.now ≡ 6 * bodies) }
    requires valid { Valid (length values.old) bodies numbers.now words.now }
    ensures values_after { values.new ≡ tabulate (λ i. value_in (rows_in numbers.now words.now i) responses.now) (length values.old) }
    ensures sizes_after { sizes.new ≡ tabulate (λ i. value_in (row_sizes_in numbers.now words.now i) size_responses.now) (length values.old) }
{
    for i in 0..values.len() {
        let row = value_at(numbers, words, i, responses, size_responses);
        values[i] = row.value;
        sizes[i] = row.size;
    }
}
