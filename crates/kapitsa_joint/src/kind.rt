// Which solve it is. Document 02, a: velocities start from a lent residual, open by the impulse's bounds, and have the factor before the count 0 test.
ghost use Rattle.std.specs.Prelude.{◌≡◌};
ghost use Rattle.kapitsa_joint.specs.Kind.{is_velocity, place_of, placed_of};

#[derive(Clone, Copy, Debug, PartialEq, Eq)]
pub enum Kind {
    Position,
    Velocity,
}

pub fn is_velocity(kind: Kind) -> bool
    ensures { result ≡ is_velocity kind }
{
    match kind {
        Kind::Position => false,
        Kind::Velocity => true,
    }
}

// Where a row has the number that grows.
pub fn place_of(kind: Kind) -> usize
    ensures { result ≡ place_of kind }
{
    match kind {
        Kind::Position => 24,
        Kind::Velocity => 25,
    }
}

// How many bodies have a centre.
pub fn placed_of(kind: Kind, bodies: u32) -> u32
    ensures { result ≡ placed_of kind bodies }
{
    match kind {
        Kind::Position => bodies,
        Kind::Velocity => 0,
    }
}
