// The tolerance of a row, by its dimension: row.rs, config.rs and position_row_tolerance of pcg.rs.
ghost use Rattle.std.specs.Prelude.{◌≡◌};
ghost use Rattle.kapitsa_joint.specs.Tolerance.{dimension_of, tolerance_of};

#[derive(Clone, Copy, Debug, PartialEq, Eq)]
pub enum RowDimension {
    Linear,
    Angular,
}

#[derive(Clone, Copy)]
pub struct JointTolerance {
    pub linear_m: f64,
    pub angular_rad: f64,
}

#[tactic(auto, unfolding(crate::specs::Tolerance::dimension_of))]
pub fn dimension(word: u32) -> RowDimension
    ensures { result ≡ dimension_of word }
{
    if word == 0 {
        return RowDimension::Linear;
    }
    RowDimension::Angular
}

impl JointTolerance {
    #[tactic(auto, unfolding(crate::specs::Tolerance::tolerance_of))]
    pub fn of(self, dimension: RowDimension) -> f64
        ensures { result ≡ tolerance_of self dimension }
    {
        match dimension {
            RowDimension::Linear => self.linear_m,
            RowDimension::Angular => self.angular_rad,
        }
    }
}
