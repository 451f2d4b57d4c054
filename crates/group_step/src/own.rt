// The rows of one group as a table of their own, solved alone.
ghost use Rattle.std.specs.Prelude.{◌≡◌, ◌*◌, ◌≤◌, length};
ghost use Rattle.refusals.specs.Told.{told};
ghost use Rattle.std.specs.Float.{nan};
ghost use Rattle.rules.specs.Rows.{rules_in};
ghost use Rattle.position.specs.Kinds.{GivenRoom};
ghost use Rattle.group_table.specs.Pick.{rows_of, pick_rows};
ghost use Rattle.group_step.specs.Bench.{bench_of};
ghost use Rattle.group_step.specs.Group.{SolvedAlone};
ghost use Rattle.group_step.specs.Step.{GivenPicked, GroupPicked, BenchRoom, OwnRoom};

use group_table::pick_rows;
use kapitsa_joint::Kind;
use position_delivery::PositionPcgResult;
use position_solve::solve_table;
use refusals::Refusal;

// A residual is looked at for velocities alone.
#[tactic(auto, using(crate::proofs::Owned::given_room))]
fn pick_given(kind: Kind, groups: &[u32], g: u32, rows: usize, given: &[f64], picked: &mut [f64])
    requires { (rows ≤ length groups.now) × GivenRoom kind (length given.now) rows × (length picked.old ≡ length (rows_of groups.now g rows)) }
    ensures { GivenPicked kind (rows_of groups.now g rows) given.now picked.old picked.new }
{
    match kind {
        Kind::Position => {}
        Kind::Velocity => {
            pick_rows(groups, g, rows, 1, given, picked);
        }
    }
}

// The group's rows: their numbers and words, and of velocities their residual.
fn pick_group(
    kind: Kind,
    groups: &[u32],
    g: u32,
    rows: usize,
    numbers: &[f64],
    words: &[u32],
    given: &[f64],
    own_numbers: &mut [f64],
    own_words: &mut [u32],
    own_given: &mut [f64],
)
    requires rows_in_bounds { (rows ≤ length groups.now) × (length numbers.now ≡ 27 * rows) × (length words.now ≡ 8 * rows) × GivenRoom kind (length given.now) rows }
    requires own_numbers_len { (length own_numbers.old ≡ 27 * length (rows_of groups.now g rows)) × (length own_words.old ≡ 8 * length (rows_of groups.now g rows)) × (length own_given.old ≡ length (rows_of groups.now g rows)) }
    ensures { GroupPicked kind (rows_of groups.now g rows) numbers.now words.now given.now own_numbers.new own_words.new own_given.old own_given.new }
{
    pick_rows(groups, g, rows, 27, numbers, own_numbers);
    pick_rows(groups, g, rows, 8, words, own_words);
    pick_given(kind, groups, g, rows, given, own_given);
}

// The solve of the group's `k` rows alone, in memory that holds just them.
pub fn solve_own(
    kind: Kind,
    groups: &[u32],
    g: u32,
    k: u32,
    numbers: &[f64],
    words: &[u32],
    masses: &[f64],
    centres: &[f64],
    rows: u32,
    bodies: u32,
    rule_words: &[u32],
    rule_tolerances: &[f64],
    given: &[f64],
    limit: u32,
    mode: u32,
    shift: f64,
    own_numbers: &mut [f64],
    own_words: &mut [u32],
    own_given: &mut [f64],
    own_solution: &mut [f64],
    own_impulses: &mut [f64],
    own_centres: &mut [f64],
    own_rules: &mut [u32],
) -> Result<PositionPcgResult, Refusal>
    requires rows_in_bounds { (rows ≤ length groups.now) × (length numbers.now ≡ 27 * rows) × (k ≡ length (rows_of groups.now g rows)) }
    requires bench_room { BenchRoom kind rows bodies mode words.now masses.now centres.now given.now rule_words.now rule_tolerances.now }
    requires own_room { OwnRoom kind bodies k own_numbers.old own_words.old own_given.old own_solution.old own_impulses.old own_centres.old own_rules.old }
    ensures { SolvedAlone (bench_of kind rows bodies words.now masses.now centres.now given.now (rules_in rule_words.now rule_tolerances.now) limit mode shift) numbers.entry.now (rows_of groups.now g rows)
        record { numbers = pick_rows nan 27 (rows_of groups.now g rows) numbers.entry.now; solution = own_solution.old; impulses = own_impulses.old; centres = own_centres.old }
        record { numbers = own_numbers.new; solution = own_solution.new; impulses = own_impulses.new; centres = own_centres.new }
        own_rules.old own_rules.new (told result) }
{
    pick_group(
        kind,
        groups,
        g,
        rows as usize,
        numbers,
        words,
        given,
        own_numbers,
        own_words,
        own_given,
    );
    solve_table(
        kind,
        own_numbers,
        own_words,
        masses,
        centres,
        k,
        bodies,
        rule_words,
        rule_tolerances,
        own_given,
        limit,
        mode,
        shift,
        own_solution,
        own_impulses,
        own_centres,
        own_rules,
    )
}
