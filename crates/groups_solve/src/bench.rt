// Where the whole table passes: the groups numbered, the bodies of none of them, and each group solved.
ghost use Rattle.std.specs.Prelude.{◌≡◌, ◌+◌, ◌*◌, ◌<◌, ◌≤◌, length};
ghost use Rattle.loops.specs.Cleared.{zeros};
ghost use Rattle.kapitsa_joint.specs.Kind.{placed_of};
ghost use Rattle.rules.specs.Rows.{rules_in};
ghost use Rattle.groups.specs.Together.{links_in, Linked};
ghost use Rattle.group_step.specs.Bench.{bench_of, lending_of};
ghost use Rattle.group_step.specs.Step.{BodiesPut, BenchRoom, TableRoom, ToldRoom};
ghost use Rattle.groups_solve.specs.Each.{EachSolved};
ghost use Rattle.groups_solve.specs.Solved.{BenchSolved};

use group_step::deliver::put_bodies;
use group_step::solve_group;
use group_table::count_rows;
use groups::{group_rows, mark_bodies};
use kapitsa_joint::{Kind, placed_of};

// The bodies of no group: impulses of +0.0, and the centre as it came in.
fn still_bodies(
    kind: Kind,
    bodies: u32,
    marks: &[u32],
    centres: &[f64],
    impulses: &mut [f64],
    new_centres: &mut [f64],
)
    requires { (bodies ≤ 256) × (bodies ≤ length marks.now) × (6 * bodies ≤ length impulses.old) × (3 * placed_of kind bodies ≤ length centres.now) × (3 * placed_of kind bodies ≤ length new_centres.old) }
    ensures { BodiesPut marks.now 0 bodies (placed_of kind bodies) (zeros 1536) centres.now impulses.old new_centres.old impulses.new new_centres.new }
{
    let still: [f64; 1536] = [0.0; 1536];
    put_bodies(
        marks,
        0,
        bodies as usize,
        placed_of(kind, bodies) as usize,
        &still,
        centres,
        impulses,
        new_centres,
    );
}

// Each group in memory for its own rows, of which there are at most 512, and for all bodies.
fn solve_each(
    kind: Kind,
    count: u32,
    groups: &[u32],
    marks: &[u32],
    numbers: &mut [f64],
    words: &[u32],
    masses: &[f64],
    centres: &[f64],
    rows: u32,
    bodies: u32,
    rule_words: &[u32],
    rule_tolerances: &[f64],
    given: &[f64],
    limit: u32,
    mode: u32,
    shift: f64,
    solution: &mut [f64],
    impulses: &mut [f64],
    new_centres: &mut [f64],
    rule_numbers: &mut [u32],
    group_answers: &mut [u32],
    group_maxima: &mut [f64],
)
    requires groups_len { (length groups.now ≡ rows) × (bodies ≤ length marks.now) × (count ≤ rows) }
    requires bench_room { BenchRoom kind rows bodies mode words.now masses.now centres.now given.now rule_words.now rule_tolerances.now }
    requires table_room { TableRoom kind rows bodies numbers.old solution.old impulses.old new_centres.old rule_numbers.old × ToldRoom rows group_answers.old group_maxima.old }
    ensures { EachSolved (bench_of kind rows bodies words.now masses.now centres.now given.now (rules_in rule_words.now rule_tolerances.now) limit mode shift) marks.now count
        (lending_of numbers.old solution.old impulses.old new_centres.old rule_numbers.old groups.now group_answers.old group_maxima.old)
        (lending_of numbers.new solution.new impulses.new new_centres.new rule_numbers.new groups.now group_answers.new group_maxima.new) }
{
    let mut own_numbers: [f64; 13824] = [0.0; 13824];
    let mut own_words: [u32; 4096] = [0; 4096];
    let mut own_given: [f64; 512] = [0.0; 512];
    let mut own_solution: [f64; 512] = [0.0; 512];
    let mut own_impulses: [f64; 1536] = [0.0; 1536];
    let mut own_centres: [f64; 768] = [0.0; 768];
    let mut own_rules: [u32; 512] = [0; 512];
    let n = rows as usize;
    let body_numbers = 6 * (bodies as usize);
    let centre_numbers = 3 * (placed_of(kind, bodies) as usize);
    for g in 0..count {
        let k = count_rows(groups, g, n);
        solve_group(
            kind,
            g,
            k as u32,
            groups,
            marks,
            numbers,
            words,
            masses,
            centres,
            rows,
            bodies,
            rule_words,
            rule_tolerances,
            given,
            limit,
            mode,
            shift,
            solution,
            impulses,
            new_centres,
            rule_numbers,
            group_answers,
            group_maxima,
            &mut own_numbers[..27 * k],
            &mut own_words[..8 * k],
            &mut own_given[..k],
            &mut own_solution[..k],
            &mut own_impulses[..body_numbers],
            &mut own_centres[..centre_numbers],
            &mut own_rules[..k],
        );
    }
}

// The answer is how many groups there are.
pub fn solve_bench(
    kind: Kind,
    numbers: &mut [f64],
    words: &[u32],
    masses: &[f64],
    centres: &[f64],
    rows: u32,
    bodies: u32,
    rule_words: &[u32],
    rule_tolerances: &[f64],
    given: &[f64],
    limit: u32,
    mode: u32,
    shift: f64,
    solution: &mut [f64],
    impulses: &mut [f64],
    new_centres: &mut [f64],
    rule_numbers: &mut [u32],
    group_numbers: &mut [u32],
    group_answers: &mut [u32],
    group_maxima: &mut [f64],
) -> u32
    requires group_numbers_len { (length group_numbers.old ≡ rows) × Linked (links_in words.now) rows bodies }
    requires bench_room { BenchRoom kind rows bodies mode words.now masses.now centres.now given.now rule_words.now rule_tolerances.now }
    requires table_room { TableRoom kind rows bodies numbers.old solution.old impulses.old new_centres.old rule_numbers.old × ToldRoom rows group_answers.old group_maxima.old }
    ensures { BenchSolved (bench_of kind rows bodies words.now masses.now centres.now given.now (rules_in rule_words.now rule_tolerances.now) limit mode shift)
        (lending_of numbers.old solution.old impulses.old new_centres.old rule_numbers.old group_numbers.old group_answers.old group_maxima.old)
        (lending_of numbers.new solution.new impulses.new new_centres.new rule_numbers.new group_numbers.new group_answers.new group_maxima.new) result }
{
    let mut labels: [u32; 768] = [0; 768];
    let mut marks: [u32; 256] = [0; 256];
    let n = rows as usize;
    let b = bodies as usize;
    let count = group_rows(words, masses, n, b, &mut labels, group_numbers);
    mark_bodies(words, masses, n, b, count, group_numbers, &mut marks);
    still_bodies(kind, bodies, &marks, centres, impulses, new_centres);
    solve_each(
        kind,
        count,
        group_numbers,
        &marks,
        numbers,
        words,
        masses,
        centres,
        rows,
        bodies,
        rule_words,
        rule_tolerances,
        given,
        limit,
        mode,
        shift,
        solution,
        impulses,
        new_centres,
        rule_numbers,
        group_answers,
        group_maxima,
    );
    count
}
