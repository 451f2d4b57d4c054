// Vec3 of vector.rs.
ghost use Rattle.std.specs.Prelude.{◌≡◌};
ghost use Rattle.kapitsa_math.specs.Vector.{dot_of, add_of, scale_of, negate_of, abs_of, is_finite_of};
ghost use Rattle.kapitsa_math.specs.Checked.{checked_dot_of, CheckedTells, dot_run};

use crate::scalar::checked_value;

#[derive(Clone, Copy)]
pub struct Vec3 {
    pub x: f64,
    pub y: f64,
    pub z: f64,
}

impl Vec3 {
    #[tactic(auto, unfolding(crate::specs::Vector::dot_of))]
    pub fn dot(self, rhs: Vec3) -> f64
        ensures { result ≡ dot_of self rhs }
    {
        self.x * rhs.x + self.y * rhs.y + self.z * rhs.z
    }

    #[tactic(auto, unfolding(crate::specs::Vector::add_of))]
    pub fn add(self, rhs: Vec3) -> Vec3
        ensures { result ≡ add_of self rhs }
    {
        Vec3 {
            x: self.x + rhs.x,
            y: self.y + rhs.y,
            z: self.z + rhs.z,
        }
    }

    #[tactic(auto, unfolding(crate::specs::Vector::scale_of))]
    pub fn scale(self, rhs: f64) -> Vec3
        ensures { result ≡ scale_of self rhs }
    {
        Vec3 {
            x: self.x * rhs,
            y: self.y * rhs,
            z: self.z * rhs,
        }
    }

    #[tactic(auto, unfolding(crate::specs::Vector::negate_of))]
    pub fn negate(self) -> Vec3
        ensures { result ≡ negate_of self }
    {
        Vec3 {
            x: -self.x,
            y: -self.y,
            z: -self.z,
        }
    }

    #[tactic(auto, unfolding(crate::specs::Vector::abs_of))]
    pub fn abs(self) -> Vec3
        ensures { result ≡ abs_of self }
    {
        Vec3 {
            x: binary64::abs(self.x),
            y: binary64::abs(self.y),
            z: binary64::abs(self.z),
        }
    }

    #[tactic(auto, unfolding(crate::specs::Vector::is_finite_of))]
    pub fn is_finite(self) -> bool
        ensures { result ≡ is_finite_of self }
    {
        binary64::is_finite(self.x) & binary64::is_finite(self.y) & binary64::is_finite(self.z)
    }

    // The dot product, where both vectors and the product are finite.
    pub fn checked_dot(self, rhs: Vec3) -> Option<f64>
        ensures value { result ≡ checked_dot_of self rhs }
        ensures checked_tells { CheckedTells (dot_run self rhs) result }
    {
        if !(self.is_finite() & rhs.is_finite()) {
            return None;
        }
        checked_value(self.dot(rhs))
    }
}
