// Refusal 26, of a tolerance and of two: true where it does not apply.
ghost use Rattle.std.specs.Prelude.{◌≡◌};
ghost use Rattle.joint_refusals.specs.Tolerances.{tolerance_fits, passes26};

use kapitsa_joint::JointTolerance;

// By whole numbers on the bits, as refusal 18: below those of +infinity, or those of −0.0.
pub fn tolerance_fits(x: f64) -> bool
    ensures { result ≡ tolerance_fits x }
{
    let bits = binary64::to_bits(x);
    (bits < 0x7ff0_0000_0000_0000) | (bits == 0x8000_0000_0000_0000)
}

pub fn tolerances_fit(tolerance: JointTolerance) -> bool
    ensures { result ≡ passes26 tolerance }
{
    tolerance_fits(tolerance.linear_m) & tolerance_fits(tolerance.angular_rad)
}
