// How far a step goes along its direction: alpha, by the operator on it. Steps of both kinds go so far, so it is found before they part.
// The product is not tested: where a number of it is not finite, direction times product is not (mass_operator, proofs/Dots.antt), and both are 16.
ghost use Rattle.std.specs.Prelude.{◌≡◌, ◌+◌, ◌*◌, ◌≤◌, length};
ghost use Rattle.compact_table.specs.Compact.{Linked};
ghost use Rattle.mass_operator.specs.System.{compact_system};
ghost use Rattle.recurrence.specs.Parts.{length_of};
ghost use Rattle.recurrence.specs.Answers.{ProductLeft};
ghost use Rattle.refusals.specs.Told.{told};

use crate::ratio::alpha;
use mass_operator::global_velocity_matrix_vector;
use refusals::Refusal;

pub fn step_length(
    jacobians: &[f64],
    links: &[u32],
    masses: &[f64],
    bodies: usize,
    direction: &[f64],
    residual_product: f64,
    body_impulses: &mut [f64],
    product: &mut [f64],
) -> Result<f64, Refusal>
    requires direction_in_bounds { (12 * length direction.now ≤ length jacobians.now) × (2 * length direction.now ≤ length links.now) × (10 * bodies ≤ length masses.now) }
    requires body_impulses_len { (length body_impulses.old ≡ 6 * bodies) × (length product.old ≡ length direction.now) }
    requires linked { Linked links.now (length direction.now) bodies }
    ensures residual_product_value { length_of (compact_system (length direction.entry.now) bodies jacobians.now links.now masses.now) record { direction = direction.entry.now; s = residual_product } ≡ told result }
    ensures product_left { ProductLeft (compact_system (length direction.now) bodies jacobians.now links.now masses.now) direction.now body_impulses.new product.new }
{
    let denominator = global_velocity_matrix_vector(
        jacobians,
        links,
        masses,
        direction,
        bodies,
        body_impulses,
        product,
    );
    alpha(residual_product, denominator)
}
