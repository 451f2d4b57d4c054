// The responses of the bodies to the impulses of the list, and to those of its sizes, in one pass over the lent masses.
ghost use Rattle.std.specs.Prelude.{◌≡◌, map, ◌+◌, ◌*◌, ◌≤◌, length};
ghost use Rattle.binary64.specs.Order.{absolute};
ghost use Rattle.kapitsa_joint.specs.Impulse.{paired_of, put_paired_of};
ghost use Rattle.kapitsa_joint.specs.Mass.{mass_of};
ghost use Rattle.mass_operator.specs.Operator.{response_of};
ghost use Rattle.mass_operator.specs.Lent.{Paired};

use check_measure::mass_size;
use kapitsa_joint::{SolverMass, mass_at, paired_at, put_paired};
use mass_operator::product::response;

fn turn(mass: SolverMass, b: usize, impulses: &mut [f64])
    requires { 6 * b + 6 ≤ length impulses.old }
    ensures { impulses.new ≡ put_paired_of impulses.old b (response_of mass (paired_of impulses.old b)) }
{
    let responded = response(mass, paired_at(impulses, b));
    put_paired(impulses, b, responded);
}

// Body b, and its sizes.
fn turn_both(masses: &[f64], b: usize, impulses: &mut [f64], size_impulses: &mut [f64])
    requires { (10 * b + 10 ≤ length masses.now) × (6 * b + 6 ≤ length impulses.old) × (6 * b + 6 ≤ length size_impulses.old) }
    ensures impulses_after { impulses.new ≡ put_paired_of impulses.old b (response_of (mass_of masses.now b) (paired_of impulses.old b)) }
    ensures size_impulses_after { size_impulses.new ≡ put_paired_of size_impulses.old b (response_of (mass_of (map absolute masses.now) b) (paired_of size_impulses.old b)) }
{
    let mass = mass_at(masses, b);
    turn(mass, b, impulses);
    turn(mass_size(mass), b, size_impulses);
}

// The response of every body in place of its impulse.
pub fn respond(masses: &[f64], bodies: usize, impulses: &mut [f64], size_impulses: &mut [f64])
    requires { (10 * bodies ≤ length masses.now) × (length impulses.old ≡ 6 * bodies) × (length size_impulses.old ≡ 6 * bodies) }
    ensures paired { Paired (λ b. response_of (mass_of masses.now b) (paired_of impulses.old b)) bodies impulses.new }
    ensures paired_2 { Paired (λ b. response_of (mass_of (map absolute masses.now) b) (paired_of size_impulses.old b)) bodies size_impulses.new }
{
    for b in 0..bodies {
        turn_both(masses, b, impulses, size_impulses);
    }
}
