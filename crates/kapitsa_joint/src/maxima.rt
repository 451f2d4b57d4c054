// The largest number of each dimension.
ghost use Rattle.std.specs.Prelude.{◌≡◌};
ghost use Rattle.kapitsa_joint.specs.Maxima.{raised_by};

use crate::tolerance::RowDimension;

#[derive(Clone, Copy)]
pub struct Maxima {
    pub linear: f64,
    pub angular: f64,
}

impl Maxima {
    #[tactic(auto, unfolding(crate::specs::Maxima::raised_by))]
    pub fn raised(self, dimension: RowDimension, size: f64) -> Maxima
        ensures { result ≡ raised_by dimension size self }
    {
        match dimension {
            RowDimension::Linear => Maxima {
                linear: binary64::max(self.linear, size),
                angular: self.angular,
            },
            RowDimension::Angular => Maxima {
                linear: self.linear,
                angular: binary64::max(self.angular, size),
            },
        }
    }
}
