// What an accepted group delivers, into the whole table: its rows' numbers, solution and rules, and the impulses and new centres of its bodies.
ghost use Rattle.std.specs.Prelude.{◌≡◌, ◌+◌, ◌*◌, ◌<◌, ◌≤◌, length};
ghost use Rattle.refusals.specs.Told.{told};
ghost use Rattle.group_table.specs.Pick.{rows_of};
ghost use Rattle.group_step.specs.Step.{RowsPut, BodiesPut, TableRoom, Delivered, TableKept};

use group_table::{copy_marked, put_rows};
use kapitsa_joint::{Kind, placed_of};
use position_delivery::PositionPcgResult;
use refusals::Refusal;

// The rows.
fn put_group(
    groups: &[u32],
    g: u32,
    rows: usize,
    own_numbers: &[f64],
    own_solution: &[f64],
    own_rules: &[u32],
    numbers: &mut [f64],
    solution: &mut [f64],
    rule_numbers: &mut [u32],
)
    requires rows_in_bounds { (rows ≤ length groups.now) × (27 * rows ≤ length numbers.old) × (rows ≤ length solution.old) × (rows ≤ length rule_numbers.old) }
    requires own_numbers_len { (length own_numbers.now ≡ 27 * length (rows_of groups.now g rows)) × (length own_solution.now ≡ length (rows_of groups.now g rows)) × (length own_rules.now ≡ length (rows_of groups.now g rows)) }
    ensures { RowsPut groups.now g rows own_numbers.now own_solution.now own_rules.now numbers.old solution.old rule_numbers.old numbers.new solution.new rule_numbers.new }
{
    put_rows(groups, g, rows, 27, own_numbers, numbers);
    put_rows(groups, g, rows, 1, own_solution, solution);
    put_rows(groups, g, rows, 1, own_rules, rule_numbers);
}

// The bodies that bear the group's mark; `placed` of them have centres.
pub fn put_bodies(
    marks: &[u32],
    mark: u32,
    bodies: usize,
    placed: usize,
    own_impulses: &[f64],
    own_centres: &[f64],
    impulses: &mut [f64],
    new_centres: &mut [f64],
)
    requires bodies_in_bounds { (bodies ≤ length marks.now) × (placed ≤ bodies) }
    requires bodies_in_bounds_2 { (6 * bodies ≤ length own_impulses.now) × (6 * bodies ≤ length impulses.old) × (3 * placed ≤ length own_centres.now) × (3 * placed ≤ length new_centres.old) }
    ensures { BodiesPut marks.now mark bodies placed own_impulses.now own_centres.now impulses.old new_centres.old impulses.new new_centres.new }
{
    copy_marked(marks, mark, bodies, 6, own_impulses, impulses);
    copy_marked(marks, mark, placed, 3, own_centres, new_centres);
}

// Where the group is accepted; nothing is written of a refused one.
pub fn deliver_group(
    answer: Result<PositionPcgResult, Refusal>,
    kind: Kind,
    groups: &[u32],
    marks: &[u32],
    g: u32,
    rows: u32,
    bodies: u32,
    own_numbers: &[f64],
    own_solution: &[f64],
    own_impulses: &[f64],
    own_centres: &[f64],
    own_rules: &[u32],
    numbers: &mut [f64],
    solution: &mut [f64],
    impulses: &mut [f64],
    new_centres: &mut [f64],
    rule_numbers: &mut [u32],
)
    requires rows_in_bounds { (rows ≤ length groups.now) × (bodies ≤ length marks.now) × (g + 1 < 4294967296) }
    requires table_room { TableRoom kind (length (rows_of groups.now g rows)) bodies own_numbers.now own_solution.now own_impulses.now own_centres.now own_rules.now }
    requires table_room_2 { TableRoom kind rows bodies numbers.old solution.old impulses.old new_centres.old rule_numbers.old }
    ensures delivered { Delivered kind bodies rows groups.now marks.now g (told answer)
        record { numbers = own_numbers.now; solution = own_solution.now; impulses = own_impulses.now; centres = own_centres.now } own_rules.now
        record { numbers = numbers.entry.now; solution = solution.old; impulses = impulses.old; centres = new_centres.old }
        record { numbers = numbers.exit.now; solution = solution.new; impulses = impulses.new; centres = new_centres.new }
        rule_numbers.old rule_numbers.new }
    ensures table_kept { TableKept kind bodies rows groups.now marks.now g
        record { numbers = numbers.entry.now; solution = solution.old; impulses = impulses.old; centres = new_centres.old }
        record { numbers = numbers.exit.now; solution = solution.new; impulses = impulses.new; centres = new_centres.new }
        rule_numbers.old rule_numbers.new }
{
    match answer {
        Ok(_) => {
            let placed = placed_of(kind, bodies);
            put_group(
                groups,
                g,
                rows as usize,
                own_numbers,
                own_solution,
                own_rules,
                numbers,
                solution,
                rule_numbers,
            );
            put_bodies(
                marks,
                g + 1,
                bodies as usize,
                placed as usize,
                own_impulses,
                own_centres,
                impulses,
                new_centres,
            );
        }
        Err(_) => {}
    }
}
