// The solve by groups for C, of document 02, g: several mechanisms on one bench, of positions and of velocities. 0 where the whole table's tests pass, each group then with an answer of its own, or the whole table's refusal (3, 25, 4, 27, 28, 6, of velocities 20, and 7).
ghost use Rattle.std.specs.Prelude.{◌≡◌, ◌&&◌, [], length};
ghost use Rattle.kapitsa_joint.specs.declared.kind.Kind.TheVariants.{Position, Velocity};
ghost use Rattle.rules.specs.Rows.{rules_in};
ghost use Rattle.own_memory.specs.Job.{job_fits};
ghost use Rattle.group_step.specs.Bench.{bench_of, lending_of};
ghost use Rattle.groups_solve.specs.Judged.{groups_lent};
ghost use Rattle.refusals.specs.Told.{told};
ghost use Rattle.kapitsa_groups_c.specs.Benches.{count_fits, bench_told, GroupsTold};

use groups_solve::{solve_position_groups, solve_velocity_groups};
use refusals::Refusal;

// Refusal 3, of the word that takes how many groups there are: true where it does not apply.
fn count_fits(group_count: &[u32]) -> bool
    ensures { result ≡ count_fits group_count.now }
{
    group_count.len() == 1
}

// How many groups there are; nothing where the answer is a refusal.
fn tell_groups(answer: Result<u32, Refusal>, group_count: &mut [u32]) -> u32
    requires { length group_count.old ≡ 1 }
    ensures { record { number = result; count = group_count.new } ≡ bench_told (told answer) group_count.old }
{
    match answer {
        Ok(count) => {
            group_count[0] = count;
            0
        }
        Err(refusal) => refusal.number(),
    }
}

// For n rows and b bodies: numbers 27n, words 8n, masses 10b, centres 3b, solution n, impulses 6b, new_centres 3b; for r rules rule_words 3r (dimension, first key, last key), rule_tolerances r; rule_numbers n, group_numbers n (each row's group), group_answers 3n (of each group its refusal or 0, count and flag), group_maxima 2n (linear, angular), group_count 1.
// A refusal of the whole table writes nothing. Of a refused group its three words are written and nothing else. Work memory is its own.
#[unsafe(no_mangle)]
pub extern "C" fn kapitsa_solve_groups(
    numbers: &mut [f64],
    words: &[u32],
    masses: &[f64],
    centres: &[f64],
    rule_words: &[u32],
    rule_tolerances: &[f64],
    rows: u32,
    bodies: u32,
    limit: u32,
    mode: u32,
    shift: f64,
    solution: &mut [f64],
    impulses: &mut [f64],
    new_centres: &mut [f64],
    rule_numbers: &mut [u32],
    group_numbers: &mut [u32],
    group_answers: &mut [u32],
    group_maxima: &mut [f64],
    group_count: &mut [u32],
) -> u32
    ensures { GroupsTold (count_fits group_count.old && (job_fits Position rows bodies mode (length numbers.old) (length words.now) (length masses.now) (length solution.old) (length impulses.old) (length centres.now) (length new_centres.old) (length rule_words.now) (length rule_tolerances.now) (length rule_numbers.old) 0 && groups_lent rows (length group_numbers.old) (length group_answers.old) (length group_maxima.old)))
        (bench_of Position rows bodies words.now masses.now centres.now [] (rules_in rule_words.now rule_tolerances.now) limit mode shift)
        (lending_of numbers.old solution.old impulses.old new_centres.old rule_numbers.old group_numbers.old group_answers.old group_maxima.old)
        (lending_of numbers.new solution.new impulses.new new_centres.new rule_numbers.new group_numbers.new group_answers.new group_maxima.new)
        group_count.old record { number = result; count = group_count.new } }
{
    if !count_fits(group_count) {
        return 3;
    }
    let answer = solve_position_groups(
        numbers,
        words,
        masses,
        centres,
        rows,
        bodies,
        rule_words,
        rule_tolerances,
        limit,
        mode,
        shift,
        solution,
        impulses,
        new_centres,
        rule_numbers, // the rule of each row
        group_numbers, // the group of each row
        group_answers,
        group_maxima,
    );
    tell_groups(answer, group_count)
}

// Of velocities: given n (the residual, only read), and no centres; all else is the same.
#[unsafe(no_mangle)]
pub extern "C" fn kapitsa_solve_velocity_groups(
    numbers: &mut [f64],
    words: &[u32],
    masses: &[f64],
    given: &[f64],
    rule_words: &[u32],
    rule_tolerances: &[f64],
    rows: u32,
    bodies: u32,
    limit: u32,
    mode: u32,
    shift: f64,
    solution: &mut [f64],
    impulses: &mut [f64],
    rule_numbers: &mut [u32],
    group_numbers: &mut [u32],
    group_answers: &mut [u32],
    group_maxima: &mut [f64],
    group_count: &mut [u32],
) -> u32
    ensures { GroupsTold (count_fits group_count.old && (job_fits Velocity rows bodies mode (length numbers.old) (length words.now) (length masses.now) (length solution.old) (length impulses.old) 0 0 (length rule_words.now) (length rule_tolerances.now) (length rule_numbers.old) (length given.now) && groups_lent rows (length group_numbers.old) (length group_answers.old) (length group_maxima.old)))
        (bench_of Velocity rows bodies words.now masses.now [] given.now (rules_in rule_words.now rule_tolerances.now) limit mode shift)
        (lending_of numbers.old solution.old impulses.old [] rule_numbers.old group_numbers.old group_answers.old group_maxima.old)
        (lending_of numbers.new solution.new impulses.new [] rule_numbers.new group_numbers.new group_answers.new group_maxima.new)
        group_count.old record { number = result; count = group_count.new } }
{
    if !count_fits(group_count) {
        return 3;
    }
    let answer = solve_velocity_groups(
        numbers,
        words,
        masses,
        rows,
        bodies,
        rule_words,
        rule_tolerances,
        given,
        limit,
        mode,
        shift,
        solution,
        impulses,
        rule_numbers,
        group_numbers,
        group_answers,
        group_maxima,
    );
    tell_groups(answer, group_count)
}
