// Step 0, where what is judged before it let the table pass: diagonal and residual, and of each row what the steps read, side by side.
ghost use Rattle.std.specs.Prelude.{◌≡◌, ◌*◌, ◌≤◌, length};
ghost use Rattle.rules.specs.Rows.{rules_in};
ghost use Rattle.position.specs.Kinds.{GivenRoom};
ghost use Rattle.solve_method.specs.Position.{kind_of};
ghost use Rattle.position_steps.specs.Opening.{OpenedRuled};
ghost use Rattle.position_steps.specs.Start.{StartHeld, StartFree};

use compact_table::gather;
use kapitsa_joint::{Kind, is_velocity};
use position::{begin, start_residual};
use refusals::Refusal;
use rules::gather_tolerances;

// After a refusal all that is written is left free.
pub fn start(
    opened: Result<(), Refusal>,
    kind: Kind,
    numbers: &[f64],
    words: &[u32],
    masses: &[f64],
    rows: u32,
    bodies: u32,
    rule_words: &[u32],
    rule_tolerances: &[f64],
    given: &[f64],
    jacobians: &mut [f64],
    links: &mut [u32],
    tolerances: &mut [f64],
    diagonal: &mut [f64],
    pending: &mut [f64],
    residual: &mut [f64],
) -> Result<(), Refusal>
    requires numbers_len { (length numbers.now ≡ 27 * rows) × (length words.now ≡ 8 * rows) × (10 * bodies ≤ length masses.now) × (3 * length rule_tolerances.now ≤ length rule_words.now) }
    requires jacobians_len { (length jacobians.old ≡ 12 * rows) × (length links.old ≡ 2 * rows) × (length tolerances.old ≡ rows) × (length diagonal.old ≡ rows) × (length pending.old ≡ rows) × (length residual.old ≡ rows) }
    requires given_room { GivenRoom kind (length given.now) rows × OpenedRuled opened (rules_in rule_words.now rule_tolerances.now) words.now rows }
    ensures start_held { StartHeld (kind_of kind rows bodies numbers.now words.now masses.now given.now (rules_in rule_words.now rule_tolerances.now)) opened masses.now result
        jacobians.new links.new tolerances.new diagonal.new pending.new residual.new }
    ensures start_free { StartFree jacobians.old links.old tolerances.old diagonal.old pending.old residual.old jacobians.new links.new tolerances.new diagonal.new pending.new residual.new }
{
    opened?;
    gather_tolerances(words, rule_words, rule_tolerances, tolerances);
    start_residual(kind, numbers, given, residual);
    begin(
        is_velocity(kind),
        numbers,
        words,
        masses,
        bodies,
        tolerances,
        diagonal,
        residual,
    )?;
    gather(numbers, words, diagonal.len(), jacobians, links);
    loops::clear(pending);
    Ok(())
}
