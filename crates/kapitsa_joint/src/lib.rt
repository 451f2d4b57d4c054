// Constraint rows, masses, impulses and tolerances of Kapitsa's joint solver, read out of the lent tables.

#![tactic(auto)]

pub mod impulse; // impulse.rt: GeneralizedImpulse
pub mod kind; // kind.rt: positions or velocities
pub mod mass; // mass.rt: SolverMass with cross and diagonal
pub mod maxima; // maxima.rt: Maxima, the largest number of each dimension
pub mod paired; // paired.rt: GeneralizedImpulse in work memory
pub mod row; // row.rt: ConstraintRow, read whole or in parts
pub mod tolerance; // tolerance.rt: JointTolerance and RowDimension

pub use impulse::{GeneralizedImpulse, put_impulse};
pub use kind::{Kind, is_velocity, place_of, placed_of};
pub use mass::{SolverMass, mass_at};
pub use maxima::Maxima;
pub use paired::{paired_at, put_paired};
pub use row::{
    ConstraintRow, RowJacobian, RowScalars, RowWords, jacobian_at, row_at, scalars_at, words_at,
};
pub use tolerance::{JointTolerance, RowDimension, dimension};
