// The residual that a solve starts from.
ghost use Rattle.std.specs.Prelude.{◌≡◌, ◌+◌, ◌*◌, ◌≤◌, length, get_or};
ghost use Rattle.std.specs.Float.{nan};
ghost use Rattle.std.specs.Float.Ieee.{neg};
ghost use Rattle.loops.specs.Tabulate.{tabulate};
ghost use Rattle.position.specs.Kinds.{start_in, GivenRoom};

use kapitsa_joint::Kind;

// Document 01: "Residual starts as −error", number 15 of a row's 27.
fn negate_errors(numbers: &[f64], residual: &mut [f64])
    requires { 27 * length residual.old ≤ length numbers.now }
    ensures { residual.new ≡ tabulate (λ i. neg (get_or numbers.now (27 * i + 15) nan)) (length residual.old) }
{
    for i in 0..residual.len() {
        residual[i] = -numbers[27 * i + 15];
    }
}

pub fn start_residual(kind: Kind, numbers: &[f64], given: &[f64], residual: &mut [f64])
    requires residual_in_bounds { 27 * length residual.old ≤ length numbers.now }
    requires given_room { GivenRoom kind (length given.now) (length residual.old) }
    ensures { residual.new ≡ tabulate (start_in kind numbers.now given.now) (length residual.old) }
{
    match kind {
        Kind::Position => negate_errors(numbers, residual),
        Kind::Velocity => loops::copy(residual, given),
    }
}
