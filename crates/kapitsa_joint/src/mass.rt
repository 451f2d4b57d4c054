// SolverMass of solver_mass.rs: ten doubles a body, the inverse mass and the inverse inertia by columns. The centre is not read here.
ghost use Rattle.std.specs.Prelude.{◌≡◌, ◌+◌, ◌*◌, ◌≤◌, length};
ghost use Rattle.kapitsa_math.specs.Checked.{checked_value_of};
ghost use Rattle.kapitsa_joint.specs.Mass.{mass_of, cross_of, diagonal_of};

use kapitsa_math::{Mat3, Vec3, checked_value, vec_at};

#[derive(Clone, Copy)]
pub struct SolverMass {
    pub inverse_mass: f64,
    pub inverse_inertia: Mat3,
}

impl SolverMass {
    // For generalized Jacobians J = (linear, angular): Ja M^-1 Jb^T. Of the Rust's tests the last one suffices (proofs/Cross.antt).
    #[tactic(auto, unfolding(crate::specs::Mass::cross_of))]
    pub fn cross(
        self,
        linear_a: Vec3,
        angular_a: Vec3,
        linear_b: Vec3,
        angular_b: Vec3,
    ) -> Option<f64>
        ensures { result ≡ checked_value_of (cross_of self linear_a angular_a linear_b angular_b) }
    {
        let inertia = self.inverse_inertia;
        let response = inertia.mul_vector(angular_b);
        let linear = self.inverse_mass * linear_a.dot(linear_b);
        let angular = angular_a.dot(response);
        checked_value(linear + angular)
    }

    // J M^-1 J^T.
    #[tactic(auto, unfolding(crate::specs::Mass::diagonal_of))]
    pub fn diagonal(self, linear: Vec3, angular: Vec3) -> Option<f64>
        ensures { result ≡ checked_value_of (diagonal_of self linear angular) }
    {
        self.cross(linear, angular, linear, angular)
    }
}

#[tactic(auto, unfolding(crate::specs::Mass::mass_of))]
pub fn mass_at(masses: &[f64], body: usize) -> SolverMass
    requires { 10 * body + 10 ≤ length masses.now }
    ensures { result ≡ mass_of masses.now body }
{
    let at = 10 * body;
    let x = vec_at(masses, at + 1);
    let y = vec_at(masses, at + 4);
    let z = vec_at(masses, at + 7);
    SolverMass {
        inverse_mass: masses[at],
        inverse_inertia: Mat3 { x: x, y: y, z: z },
    }
}
