// The size of a row's numbers and of a mass's: what the value on sizes is made from.
ghost use Rattle.std.specs.Prelude.{◌≡◌};
ghost use Rattle.check_measure.specs.Verdict.{size_of_row, size_of_mass};

use kapitsa_joint::{RowJacobian, SolverMass};

#[tactic(auto, unfolding(crate::specs::Verdict::size_of_row))]
pub fn row_size(j: RowJacobian) -> RowJacobian
    ensures { result ≡ size_of_row j }
{
    let linear_a = j.linear_a;
    let angular_a = j.angular_a;
    let linear_b = j.linear_b;
    let angular_b = j.angular_b;
    RowJacobian {
        linear_a: linear_a.abs(),
        angular_a: angular_a.abs(),
        linear_b: linear_b.abs(),
        angular_b: angular_b.abs(),
        body_a: j.body_a,
        body_b: j.body_b,
    }
}

#[tactic(auto, unfolding(crate::specs::Verdict::size_of_mass))]
pub fn mass_size(m: SolverMass) -> SolverMass
    ensures { result ≡ size_of_mass m }
{
    let inertia = m.inverse_inertia;
    SolverMass {
        inverse_mass: binary64::abs(m.inverse_mass),
        inverse_inertia: inertia.abs(),
    }
}
