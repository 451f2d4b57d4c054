// One test for a whole vector: a number that went not finite stays so (proofs/Overflow.antt), so nothing is tested on the way.
ghost use Rattle.std.specs.Prelude.{◌≡◌};
ghost use Rattle.mass_operator.specs.Applied.{all_finite_of, applied_of};

// A number is not finite. Its refusal is the caller's: 16 in a step, 17 in what is delivered.
#[derive(Clone, Copy, Debug, PartialEq, Eq)]
pub struct NotFinite;

// It goes on where one is not: nearly always all are, and a loop that is never left is the faster one.
pub fn all_finite(numbers: &[f64]) -> bool
    ensures { result ≡ all_finite_of numbers.now }
{
    let mut all = true;
    for &x in numbers {
        all &= binary64::is_finite(x);
    }
    all
}

#[tactic(auto, unfolding(crate::specs::Applied::applied_of, loops::specs::Run::check))]
pub fn test_finite(numbers: &[f64]) -> Result<(), NotFinite>
    ensures { result ≡ applied_of numbers.now }
{
    if all_finite(numbers) {
        Ok(())
    } else {
        Err(NotFinite)
    }
}
