// The entries of the solve by groups, of positions and of velocities. They ask for no more than the table and what takes the answers.
ghost use Rattle.std.specs.Prelude.{◌&&◌, [], length};
ghost use Rattle.kapitsa_joint.specs.declared.kind.Kind.TheVariants.{Position, Velocity};
ghost use Rattle.rules.specs.Rows.{rules_in};
ghost use Rattle.own_memory.specs.Job.{job_fits};
ghost use Rattle.group_step.specs.Bench.{bench_of, lending_of};
ghost use Rattle.refusals.specs.Told.{told};
ghost use Rattle.groups_solve.specs.Judged.{groups_lent};
ghost use Rattle.groups_solve.specs.Solved.{GroupsSolved};

use crate::bench::solve_bench;
use crate::judge::{groups_lent, judge_bench};
use kapitsa_joint::Kind;
use own_memory::job_fits;
use refusals::Refusal;

// Of either kind: how many groups there are, or the whole table's refusal. Of each group three words at 3g, its refusal or 0, its count and its flag, and two numbers at 2g, its residual maxima; of a refused group these two stay as they were, as do all its numbers.
pub fn solve_groups(
    kind: Kind,
    numbers: &mut [f64],
    words: &[u32],
    masses: &[f64],
    centres: &[f64],
    rows: u32,
    bodies: u32,
    rule_words: &[u32],
    rule_tolerances: &[f64],
    given: &[f64],
    limit: u32,
    mode: u32,
    shift: f64,
    solution: &mut [f64],
    impulses: &mut [f64],
    new_centres: &mut [f64],
    rule_numbers: &mut [u32],
    group_numbers: &mut [u32],
    group_answers: &mut [u32],
    group_maxima: &mut [f64],
) -> Result<u32, Refusal>
    ensures { GroupsSolved (job_fits kind rows bodies mode (length numbers.old) (length words.now) (length masses.now) (length solution.old) (length impulses.old) (length centres.now) (length new_centres.old) (length rule_words.now) (length rule_tolerances.now) (length rule_numbers.old) (length given.now) && groups_lent rows (length group_numbers.old) (length group_answers.old) (length group_maxima.old))
        (bench_of kind rows bodies words.now masses.now centres.now given.now (rules_in rule_words.now rule_tolerances.now) limit mode shift)
        (lending_of numbers.old solution.old impulses.old new_centres.old rule_numbers.old group_numbers.old group_answers.old group_maxima.old)
        (lending_of numbers.new solution.new impulses.new new_centres.new rule_numbers.new group_numbers.new group_answers.new group_maxima.new) (told result) }
{
    let lent = groups_lent(
        rows,
        group_numbers.len(),
        group_answers.len(),
        group_maxima.len(),
    );
    if !(job_fits(
        kind,
        rows,
        bodies,
        mode,
        numbers.len(),
        words.len(),
        masses.len(),
        solution.len(),
        impulses.len(),
        centres.len(),
        new_centres.len(),
        rule_words.len(),
        rule_tolerances.len(),
        rule_numbers.len(),
        given.len(),
    ) & lent)
    {
        return Err(Refusal::Length);
    }
    judge_bench(
        kind,
        numbers,
        words,
        masses,
        centres,
        rows,
        bodies,
        rule_words,
        rule_tolerances,
        given,
        shift,
    )?;
    Ok(solve_bench(
        kind,
        numbers,
        words,
        masses,
        centres,
        rows,
        bodies,
        rule_words,
        rule_tolerances,
        given,
        limit,
        mode,
        shift,
        solution,
        impulses,
        new_centres,
        rule_numbers,
        group_numbers,
        group_answers,
        group_maxima,
    ))
}

// Of positions.
pub fn solve_position_groups(
    numbers: &mut [f64],
    words: &[u32],
    masses: &[f64],
    centres: &[f64],
    rows: u32,
    bodies: u32,
    rule_words: &[u32],
    rule_tolerances: &[f64],
    limit: u32,
    mode: u32,
    shift: f64,
    solution: &mut [f64],
    impulses: &mut [f64],
    new_centres: &mut [f64],
    rule_numbers: &mut [u32],
    group_numbers: &mut [u32],
    group_answers: &mut [u32],
    group_maxima: &mut [f64],
) -> Result<u32, Refusal>
    ensures { GroupsSolved (job_fits Position rows bodies mode (length numbers.old) (length words.now) (length masses.now) (length solution.old) (length impulses.old) (length centres.now) (length new_centres.old) (length rule_words.now) (length rule_tolerances.now) (length rule_numbers.old) 0 && groups_lent rows (length group_numbers.old) (length group_answers.old) (length group_maxima.old))
        (bench_of Position rows bodies words.now masses.now centres.now [] (rules_in rule_words.now rule_tolerances.now) limit mode shift)
        (lending_of numbers.old solution.old impulses.old new_centres.old rule_numbers.old group_numbers.old group_answers.old group_maxima.old)
        (lending_of numbers.new solution.new impulses.new new_centres.new rule_numbers.new group_numbers.new group_answers.new group_maxima.new) (told result) }
{
    let none: [f64; 0] = [0.0; 0];
    solve_groups(
        Kind::Position,
        numbers,
        words,
        masses,
        centres,
        rows,
        bodies,
        rule_words,
        rule_tolerances,
        &none,
        limit,
        mode,
        shift,
        solution,
        impulses,
        new_centres,
        rule_numbers,
        group_numbers,
        group_answers,
        group_maxima,
    )
}

// Of velocities, by a lent residual: they have no centres.
pub fn solve_velocity_groups(
    numbers: &mut [f64],
    words: &[u32],
    masses: &[f64],
    rows: u32,
    bodies: u32,
    rule_words: &[u32],
    rule_tolerances: &[f64],
    given: &[f64],
    limit: u32,
    mode: u32,
    shift: f64,
    solution: &mut [f64],
    impulses: &mut [f64],
    rule_numbers: &mut [u32],
    group_numbers: &mut [u32],
    group_answers: &mut [u32],
    group_maxima: &mut [f64],
) -> Result<u32, Refusal>
    ensures { GroupsSolved (job_fits Velocity rows bodies mode (length numbers.old) (length words.now) (length masses.now) (length solution.old) (length impulses.old) 0 0 (length rule_words.now) (length rule_tolerances.now) (length rule_numbers.old) (length given.now) && groups_lent rows (length group_numbers.old) (length group_answers.old) (length group_maxima.old))
        (bench_of Velocity rows bodies words.now masses.now [] given.now (rules_in rule_words.now rule_tolerances.now) limit mode shift)
        (lending_of numbers.old solution.old impulses.old [] rule_numbers.old group_numbers.old group_answers.old group_maxima.old)
        (lending_of numbers.new solution.new impulses.new [] rule_numbers.new group_numbers.new group_answers.new group_maxima.new) (told result) }
{
    let none: [f64; 0] = [0.0; 0];
    let mut no_centres: [f64; 0] = [0.0; 0];
    solve_groups(
        Kind::Velocity,
        numbers,
        words,
        masses,
        &none,
        rows,
        bodies,
        rule_words,
        rule_tolerances,
        given,
        limit,
        mode,
        shift,
        solution,
        impulses,
        &mut no_centres,
        rule_numbers,
        group_numbers,
        group_answers,
        group_maxima,
    )
}
