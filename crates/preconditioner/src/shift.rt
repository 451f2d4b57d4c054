// What the pivots of mode 1 start from: document 02, f.
ghost use Rattle.std.specs.Prelude.{◌≡◌};
ghost use Rattle.preconditioner.specs.Shift.{shifted, passes25};

// "each pivot starts from diagonal × (1 + shift), both rounded"
pub fn shift_diagonal(diagonal: &mut [f64], shift: f64)
    ensures { diagonal.new ≡ shifted shift diagonal.old }
{
    let scale = 1.0 + shift;
    for i in 0..diagonal.len() {
        diagonal[i] = diagonal[i] * scale;
    }
}

// Refusal 25: true where it does not apply.
#[tactic(auto, unfolding(crate::specs::Shift::passes25))]
pub fn shift_fits(shift: f64) -> bool
    ensures { result ≡ passes25 shift }
{
    (0.0 <= shift) & (shift <= 1.0)
}
