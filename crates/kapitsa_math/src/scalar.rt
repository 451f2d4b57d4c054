// What the Rust answers as an Option<f64>: a finite number, or none.
ghost use Rattle.std.specs.Prelude.{◌≡◌};
ghost use Rattle.kapitsa_math.specs.Checked.{checked_value_of};

pub fn checked_value(x: f64) -> Option<f64>
    ensures { result ≡ checked_value_of x }
{
    binary64::is_finite(x).then_some(x)
}
