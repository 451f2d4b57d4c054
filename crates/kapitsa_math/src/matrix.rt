// Mat3 of matrix.rs: three columns, applied to column vectors.
ghost use Rattle.std.specs.Prelude.{◌≡◌};
ghost use Rattle.kapitsa_math.specs.Matrix.{mul_vector_of, abs_columns_of, finite_columns_of};
ghost use Rattle.kapitsa_math.specs.Checked.{checked_mul_vector_of, CheckedTells, mul_vector_run};

use crate::vector::Vec3;

#[derive(Clone, Copy)]
pub struct Mat3 {
    pub x: Vec3,
    pub y: Vec3,
    pub z: Vec3,
}

impl Mat3 {
    #[tactic(auto, unfolding(crate::specs::Matrix::mul_vector_of))]
    pub fn mul_vector(self, rhs: Vec3) -> Vec3
        ensures { result ≡ mul_vector_of self rhs }
    {
        let x = self.x;
        let y = self.y;
        let z = self.z;
        x.scale(rhs.x).add(y.scale(rhs.y)).add(z.scale(rhs.z))
    }

    #[tactic(auto, unfolding(crate::specs::Matrix::abs_columns_of))]
    pub fn abs(self) -> Mat3
        ensures { result ≡ abs_columns_of self }
    {
        let x = self.x;
        let y = self.y;
        let z = self.z;
        Mat3 {
            x: x.abs(),
            y: y.abs(),
            z: z.abs(),
        }
    }

    #[tactic(auto, unfolding(crate::specs::Matrix::finite_columns_of))]
    pub fn is_finite(self) -> bool
        ensures { result ≡ finite_columns_of self }
    {
        let x = self.x;
        let y = self.y;
        let z = self.z;
        x.is_finite() & y.is_finite() & z.is_finite()
    }

    // The product, where the matrix, the vector and the product are finite.
    pub fn checked_mul_vector(self, rhs: Vec3) -> Option<Vec3>
        ensures value { result ≡ checked_mul_vector_of self rhs }
        ensures checked_vector_tells { CheckedTells (mul_vector_run self rhs) result }
    {
        if !(self.is_finite() & rhs.is_finite()) {
            return None;
        }
        let product = self.mul_vector(rhs);
        product.is_finite().then_some(product)
    }
}
