// The vector operations of the recurrence. None stops on the way: a number that went not finite stays so (mass_operator, proofs/Dots.antt).
ghost use Rattle.std.specs.Prelude.{◌≡◌, ◌≤◌, length};
ghost use Rattle.mass_operator.specs.Applied.{all_finite_of};
ghost use Rattle.recurrence.specs.Vectors.{dot_product_of, plus_scaled, less_scaled};

// checked_dot_product of pcg.rs, untested.
#[tactic(auto, unfolding(mass_operator::specs::Dot::dot_to, mass_operator::specs::Dot::dot_product_of))]
pub fn dot_product(left: &[f64], right: &[f64]) -> f64
    requires { length left.now ≡ length right.now }
    ensures { result ≡ dot_product_of left.now right.now }
{
    let mut sum = 0.0;
    for i in 0..left.len() {
        sum = sum + left[i] * right[i];
    }
    sum
}

// `out` gains `scale` times `vector`. Answers whether all of it is finite.
pub fn scaled_add(out: &mut [f64], scale: f64, vector: &[f64]) -> bool
    requires { length vector.now ≡ length out.old }
    ensures out_after { out.new ≡ plus_scaled out.old scale vector.now }
    ensures value { result ≡ all_finite_of out.new }
{
    let mut all = true;
    for i in 0..out.len() {
        let next = out[i] + scale * vector[i];
        out[i] = next;
        all = all & binary64::is_finite(next);
    }
    all
}

// `out` loses `scale` times `vector`.
pub fn scaled_subtract(out: &mut [f64], scale: f64, vector: &[f64])
    requires { length vector.now ≡ length out.old }
    ensures { out.new ≡ less_scaled out.old scale vector.now }
{
    for i in 0..out.len() {
        out[i] = out[i] - scale * vector[i];
    }
}

// `direction` becomes `preconditioned` plus `scale` times itself. Answers whether all of it is finite.
pub fn update_direction(direction: &mut [f64], preconditioned: &[f64], scale: f64) -> bool
    requires { length preconditioned.now ≡ length direction.old }
    ensures direction_after { direction.new ≡ plus_scaled preconditioned.now scale direction.old }
    ensures value { result ≡ all_finite_of direction.new }
{
    let mut all = true;
    for i in 0..direction.len() {
        let next = preconditioned[i] + scale * direction[i];
        direction[i] = next;
        all = all & binary64::is_finite(next);
    }
    all
}
