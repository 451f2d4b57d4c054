// The solve of one group of a table.
ghost use Rattle.std.specs.Prelude.{◌≡◌, ◌<◌, ◌≤◌, length};
ghost use Rattle.rules.specs.Rows.{rules_in};
ghost use Rattle.group_table.specs.Pick.{rows_of};
ghost use Rattle.group_step.specs.Bench.{bench_of, lending_of};
ghost use Rattle.group_step.specs.Step.{BenchRoom, TableRoom, ToldRoom, OwnRoom, GroupStep};

use crate::deliver::deliver_group;
use crate::own::solve_own;
use crate::tell::tell_group;
use kapitsa_joint::Kind;

// Group `g`, which has `k` rows: it is solved in memory that holds just them, and what it delivers is put back. `marks` has the group of each body.
pub fn solve_group(
    kind: Kind,
    g: u32,
    k: u32,
    groups: &[u32],
    marks: &[u32],
    numbers: &mut [f64],
    words: &[u32],
    masses: &[f64],
    centres: &[f64],
    rows: u32,
    bodies: u32,
    rule_words: &[u32],
    rule_tolerances: &[f64],
    given: &[f64],
    limit: u32,
    mode: u32,
    shift: f64,
    solution: &mut [f64],
    impulses: &mut [f64],
    new_centres: &mut [f64],
    rule_numbers: &mut [u32],
    group_answers: &mut [u32],
    group_maxima: &mut [f64],
    own_numbers: &mut [f64],
    own_words: &mut [u32],
    own_given: &mut [f64],
    own_solution: &mut [f64],
    own_impulses: &mut [f64],
    own_centres: &mut [f64],
    own_rules: &mut [u32],
)
    requires groups_len { (length groups.now ≡ rows) × (bodies ≤ length marks.now) × (g < rows) × (k ≡ length (rows_of groups.now g rows)) }
    requires bench_room { BenchRoom kind rows bodies mode words.now masses.now centres.now given.now rule_words.now rule_tolerances.now }
    requires table_room { TableRoom kind rows bodies numbers.old solution.old impulses.old new_centres.old rule_numbers.old × ToldRoom rows group_answers.old group_maxima.old }
    requires own_room { OwnRoom kind bodies k own_numbers.old own_words.old own_given.old own_solution.old own_impulses.old own_centres.old own_rules.old }
    ensures { GroupStep (bench_of kind rows bodies words.now masses.now centres.now given.now (rules_in rule_words.now rule_tolerances.now) limit mode shift) marks.now g
        (lending_of numbers.old solution.old impulses.old new_centres.old rule_numbers.old groups.now group_answers.old group_maxima.old)
        (lending_of numbers.new solution.new impulses.new new_centres.new rule_numbers.new groups.now group_answers.new group_maxima.new) }
{
    let answer = solve_own(
        kind,
        groups,
        g,
        k,
        numbers,
        words,
        masses,
        centres,
        rows,
        bodies,
        rule_words,
        rule_tolerances,
        given,
        limit,
        mode,
        shift,
        own_numbers,
        own_words,
        own_given,
        own_solution,
        own_impulses,
        own_centres,
        own_rules,
    );
    deliver_group(
        answer,
        kind,
        groups,
        marks,
        g,
        rows,
        bodies,
        own_numbers,
        own_solution,
        own_impulses,
        own_centres,
        own_rules,
        numbers,
        solution,
        impulses,
        new_centres,
        rule_numbers,
    );
    tell_group(answer, g, group_answers, group_maxima);
}
