// The velocity solve with work memory of its own, by a lent residual and lent rules: document 02, a.
ghost use Rattle.std.specs.Prelude.{length, []};
ghost use Rattle.refusals.specs.Told.{told};
ghost use Rattle.rules.specs.Rows.{rules_in};
ghost use Rattle.kapitsa_joint.specs.declared.kind.Kind.TheVariants.{Velocity};
ghost use Rattle.preconditioner.specs.Mode.{mode_of};
ghost use Rattle.solve_method.specs.Position.{velocity_of};
ghost use Rattle.own_memory.specs.Job.{job_fits, JobSolved};

use crate::solve::solve_table;
use kapitsa_joint::Kind;
use position_delivery::PositionPcgResult;
use refusals::Refusal;

// Solution, impulses, accumulated impulses and each row's rule are written only where the answer is accepted.
pub fn solve_velocity(
    numbers: &mut [f64],
    words: &[u32],
    masses: &[f64],
    rows: u32,
    bodies: u32,
    rule_words: &[u32],
    rule_tolerances: &[f64],
    given: &[f64],
    limit: u32,
    mode: u32,
    shift: f64,
    solution: &mut [f64],
    impulses: &mut [f64],
    rule_numbers: &mut [u32],
) -> Result<PositionPcgResult, Refusal>
    ensures { JobSolved (job_fits Velocity rows bodies mode (length numbers.entry.now) (length words.now) (length masses.now) (length solution.old) (length impulses.old) 0 0 (length rule_words.now) (length rule_tolerances.now) (length rule_numbers.old) (length given.now)) (rules_in rule_words.now rule_tolerances.now) (velocity_of rows bodies numbers.entry.now words.now masses.now given.now (rules_in rule_words.now rule_tolerances.now) shift) (mode_of mode shift) limit 25 rows record { numbers = numbers.entry.now; solution = solution.old; impulses = impulses.old; centres = [] } record { numbers = numbers.exit.now; solution = solution.new; impulses = impulses.new; centres = [] } rule_numbers.old rule_numbers.new (told result) }
{
    let none: [f64; 0] = [0.0; 0];
    let mut no_centres: [f64; 0] = [0.0; 0];
    solve_table(
        Kind::Velocity,
        numbers,
        words,
        masses,
        &none,
        rows,
        bodies,
        rule_words,
        rule_tolerances,
        given,
        limit,
        mode,
        shift,
        solution,
        impulses,
        &mut no_centres,
        rule_numbers,
    )
}
