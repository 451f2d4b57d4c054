// The inverse of a link's 3 by 3 local inertia for C: 0 with the inverse, or the refusal's number (3, 21, 22, 23 or 12).
ghost use Rattle.inertia.specs.Lent.{InverseTold};

// inertia and inverse: 9 numbers each, by columns. inverse is written where 0 is returned and nowhere else.
#[unsafe(no_mangle)]
pub extern "C" fn kapitsa_inverse_spd(inertia: &[f64], inverse: &mut [f64]) -> u32
    ensures { InverseTold inertia.now inverse.old record { number = result; inverse = inverse.new } }
{
    kapitsa_c::kapitsa_inverse_spd(inertia, inverse)
}
