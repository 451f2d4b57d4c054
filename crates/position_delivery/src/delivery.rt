// What is delivered of the step counted: 17 is judged before anything is written.
ghost use Rattle.std.specs.Prelude.{◌≡◌, ◌*◌, ◌<◌, ◌≤◌, length};
ghost use Rattle.refusals.specs.Told.{told};
ghost use Rattle.kapitsa_joint.specs.Table.{table_of};
ghost use Rattle.kapitsa_joint.specs.Centre.{centres_in};
ghost use Rattle.compact_table.specs.Compact.{compact_of, Linked};
ghost use Rattle.mass_operator.specs.Flat.{coefficients, impulses_of};
ghost use Rattle.loops.specs.Run.{going, next};
ghost use Rattle.loops.specs.Cleared.{Free};
ghost use Rattle.work_memory.specs.Work.{table_memory, cleared_table};
ghost use Rattle.work_memory.specs.Lengths.{RowsRoom, TableRoom};
ghost use Rattle.position.specs.Multipliers.{accumulated_in};
ghost use Rattle.position_iteration.specs.Standing.{iterated_out};
ghost use Rattle.position_iteration.specs.Stands.{StandsAfter, Stands};
ghost use Rattle.position_delivery.specs.Outcome.{proposal_of, outcome_at};
ghost use Rattle.position_delivery.specs.Delivery.{Judged, Shown, accepted_of, gained_after, CommitRoom, committed_by, finished_of};

use crate::answer::PositionPcgResult;
use crate::impulses::deliver_impulses;
use loops::wide;
use mass_operator::global_velocity_impulse;
use position::{add_multipliers, move_centres, moved_finite, multipliers_finite, residual_maxima};
use refusals::Refusal;
use work_memory::clear_table;

// 17, of impulses, multipliers and centres: true where it does not apply.
fn deliverable(
    place: usize,
    numbers: &[f64],
    masses: &[f64],
    centres: &[f64],
    jacobians: &[f64],
    links: &[u32],
    pending: &[f64],
    bodies: usize,
    placed: usize,
    body_impulses: &mut [f64],
) -> bool
    requires pending_in_bounds { (27 * length pending.now ≤ length numbers.now) × (12 * length pending.now ≤ length jacobians.now) × (2 * length pending.now ≤ length links.now) × (length body_impulses.old ≡ 6 * bodies) }
    requires place_bound { (place < 27) × (placed ≤ bodies) × (10 * bodies ≤ length masses.now) × (3 * placed ≤ length centres.now) }
    requires linked { Linked links.now (length pending.now) bodies }
    ensures { Judged result place placed bodies numbers.now masses.now centres.now (impulses_of (compact_of jacobians.now links.now) (coefficients pending.now) (length pending.now) bodies) pending.now body_impulses.new }
{
    if global_velocity_impulse(jacobians, links, pending, bodies, body_impulses).is_err() {
        return false;
    }
    multipliers_finite(place, numbers, pending)
        & moved_finite(masses, body_impulses, centres, placed)
}

// Solution, impulses and centres, or nothing.
fn show(
    place: usize,
    numbers: &[f64],
    masses: &[f64],
    centres: &[f64],
    jacobians: &[f64],
    links: &[u32],
    pending: &[f64],
    bodies: usize,
    placed: usize,
    body_impulses: &mut [f64],
    solution: &mut [f64],
    impulses: &mut [f64],
    new_centres: &mut [f64],
) -> bool
    requires pending_in_bounds { (27 * length pending.now ≤ length numbers.now) × (12 * length pending.now ≤ length jacobians.now) × (2 * length pending.now ≤ length links.now) × (length body_impulses.old ≡ 6 * bodies) × (length solution.old ≡ length pending.now) × (length impulses.old ≡ 6 * bodies) }
    requires place_bound { (place < 27) × (placed ≤ bodies) × (10 * bodies ≤ length masses.now) × (3 * placed ≤ length centres.now) × (length new_centres.old ≡ 3 * placed) }
    requires linked { Linked links.now (length pending.now) bodies }
    ensures { Shown result place placed numbers.now masses.now centres.now (impulses_of (compact_of jacobians.now links.now) (coefficients pending.now) (length pending.now) bodies) pending.now solution.old impulses.old new_centres.old solution.new impulses.new new_centres.new }
{
    if !deliverable(
        place,
        numbers,
        masses,
        centres,
        jacobians,
        links,
        pending,
        bodies,
        placed,
        body_impulses,
    ) {
        return false;
    }
    loops::copy(solution, pending);
    deliver_impulses(body_impulses, bodies, impulses);
    move_centres(masses, body_impulses, centres, placed, new_centres);
    true
}

// The answer of a step that is counted and delivered.
fn accept(flag: bool, count: u32, words: &[u32], residual: &[f64]) -> PositionPcgResult
    requires { 8 * length residual.now ≤ length words.now }
    ensures { going result ≡ accepted_of flag count words.now residual.now }
{
    let maxima = residual_maxima(words, residual);
    PositionPcgResult {
        converged: flag,
        iterations: count,
        linear_residual_m: maxima.linear,
        angular_residual_rad: maxima.angular,
    }
}

// What is proposed of the step counted: with count 0 no impulse, and nothing to refuse.
fn propose_step(
    flag: bool,
    count: u32,
    place: usize,
    placed: u32,
    numbers: &[f64],
    words: &[u32],
    masses: &[f64],
    centres: &[f64],
    rows: u32,
    bodies: u32,
    jacobians: &[f64],
    links: &[u32],
    pending: &[f64],
    residual: &[f64],
    body_impulses: &mut [f64],
    solution: &mut [f64],
    impulses: &mut [f64],
    new_centres: &mut [f64],
) -> Result<PositionPcgResult, Refusal>
    requires numbers_len { (length numbers.now ≡ 27 * rows) × (length words.now ≡ 8 * rows) × (10 * bodies ≤ length masses.now) × (length solution.old ≡ rows) × (length impulses.old ≡ 6 * bodies) }
    requires place_bound { (place < 27) × (placed ≤ bodies) × (length centres.now ≡ 3 * placed) × (length new_centres.old ≡ 3 * placed) }
    requires rows_in_bounds { (12 * rows ≤ length jacobians.now) × (2 * rows ≤ length links.now) × (length pending.now ≡ rows) × (length residual.now ≡ rows) × (length body_impulses.old ≡ 6 * bodies) }
    requires stands { Stands (table_of rows bodies numbers.now words.now masses.now) masses.now jacobians.now links.now }
    ensures { proposal_of solution.entry.now impulses.old new_centres.old (finished_of (table_of rows bodies numbers.now words.now masses.now) (accumulated_in place numbers.now) (centres_in placed centres.now) (flag, count, record { solution = pending.now; residual = residual.now })) ≡ record { answer = told result; solution = solution.exit.now; impulses = impulses.new; centres = new_centres.new } }
{
    if count == 0 {
        loops::copy(solution, pending);
        loops::clear(impulses);
        loops::copy(new_centres, centres);
        return Ok(accept(flag, count, words, residual));
    }
    if !show(
        place,
        numbers,
        masses,
        centres,
        jacobians,
        links,
        pending,
        wide(bodies),
        wide(placed),
        body_impulses,
        solution,
        impulses,
        new_centres,
    ) {
        return Err(Refusal::Result);
    }
    Ok(accept(flag, count, words, residual))
}

// What is proposed of the count: the step that it counts, or the refusal that it met. The rows are only read.
fn propose(
    counted: Result<Option<u32>, Refusal>,
    limit: u32,
    place: usize,
    placed: u32,
    numbers: &[f64],
    words: &[u32],
    masses: &[f64],
    centres: &[f64],
    rows: u32,
    bodies: u32,
    jacobians: &[f64],
    links: &[u32],
    pending: &[f64],
    residual: &[f64],
    body_impulses: &mut [f64],
    solution: &mut [f64],
    impulses: &mut [f64],
    new_centres: &mut [f64],
) -> Result<PositionPcgResult, Refusal>
    requires numbers_len { (length numbers.now ≡ 27 * rows) × (length words.now ≡ 8 * rows) × (10 * bodies ≤ length masses.now) × (length solution.old ≡ rows) × (length impulses.old ≡ 6 * bodies) }
    requires place_bound { (place < 27) × (placed ≤ bodies) × (length centres.now ≡ 3 * placed) × (length new_centres.old ≡ 3 * placed) }
    requires rows_in_bounds { (12 * rows ≤ length jacobians.now) × (2 * rows ≤ length links.now) × (length pending.now ≡ rows) × (length residual.now ≡ rows) × (length body_impulses.old ≡ 6 * bodies) }
    requires stands_after { StandsAfter (table_of rows bodies numbers.now words.now masses.now) masses.now counted jacobians.now links.now }
    ensures centres_value { proposal_of solution.old impulses.old new_centres.old (next (iterated_out counted limit pending.now residual.now) (finished_of (table_of rows bodies numbers.now words.now masses.now) (accumulated_in place numbers.now) (centres_in placed centres.now))) ≡ record { answer = told result; solution = solution.new; impulses = impulses.new; centres = new_centres.new } }
    ensures free { Free body_impulses.old body_impulses.new }
{
    let met = counted?;
    propose_step(
        met.is_some(),
        met.unwrap_or(limit),
        place,
        placed,
        numbers,
        words,
        masses,
        centres,
        rows,
        bodies,
        jacobians,
        links,
        pending,
        residual,
        body_impulses,
        solution,
        impulses,
        new_centres,
    )
}

// The accumulated numbers of a count with this solution: "with count 0 it keeps its bits".
pub fn gain_after(place: usize, count: u32, numbers: &mut [f64], solution: &[f64])
    requires { (place < 27) × (27 * length solution.now ≤ length numbers.old) }
    ensures { numbers.new ≡ gained_after place count numbers.old solution.now }
{
    if count == 0 {
        return;
    }
    add_multipliers(place, numbers, solution);
}

// The same of an answer; of a refusal nothing.
pub fn commit(
    place: usize,
    answer: Result<PositionPcgResult, Refusal>,
    numbers: &mut [f64],
    solution: &[f64],
)
    requires { CommitRoom place (told answer) (length solution.now) (length numbers.old) }
    ensures { numbers.new ≡ committed_by place (told answer) numbers.old solution.now }
{
    match answer {
        Ok(result) => {
            gain_after(place, result.iterations, numbers, solution);
        }
        Err(_) => {}
    }
}

// Proposed, and what is read of the work memory cleared. `place` is where a row has its accumulated number, and `placed` bodies have a centre: all, or for velocities none. The contract tells what a commit then makes of the rows (document 02, l).
pub fn propose_and_clear(
    counted: Result<Option<u32>, Refusal>,
    limit: u32,
    place: usize,
    placed: u32,
    numbers: &[f64],
    words: &[u32],
    masses: &[f64],
    centres: &[f64],
    rows: u32,
    bodies: u32,
    jacobians: &mut [f64],
    links: &mut [u32],
    residual: &mut [f64],
    pending: &mut [f64],
    body_impulses: &mut [f64],
    solution: &mut [f64],
    impulses: &mut [f64],
    new_centres: &mut [f64],
) -> Result<PositionPcgResult, Refusal>
    requires rows_room { RowsRoom rows bodies numbers.now words.now masses.now }
    requires solution_len { (length solution.old ≡ rows) × (length impulses.old ≡ 6 * bodies) }
    requires place_bound { (place < 27) × (placed ≤ bodies) × (length centres.now ≡ 3 * placed) × (length new_centres.old ≡ 3 * placed) }
    requires table_room { TableRoom rows bodies (table_memory jacobians.old links.old residual.old pending.old body_impulses.old) }
    requires stands_after { StandsAfter (table_of rows bodies numbers.now words.now masses.now) masses.now counted jacobians.old links.old }
    ensures centres_value { outcome_at place rows record { numbers = numbers.entry.now; solution = solution.old; impulses = impulses.old; centres = new_centres.old } (next (iterated_out counted limit pending.old residual.old) (finished_of (table_of rows bodies numbers.entry.now words.now masses.now) (accumulated_in place numbers.entry.now) (centres_in placed centres.now))) ≡ record { answer = told result; lent = record { numbers = committed_by place (told result) numbers.entry.now solution.new; solution = solution.new; impulses = impulses.new; centres = new_centres.new } } }
    ensures body_impulses_after { table_memory jacobians.new links.new residual.new pending.new body_impulses.new ≡ cleared_table (table_memory jacobians.old links.old residual.old pending.old body_impulses.old) }
{
    let answer = propose(
        counted,
        limit,
        place,
        placed,
        numbers,
        words,
        masses,
        centres,
        rows,
        bodies,
        jacobians,
        links,
        pending,
        residual,
        body_impulses,
        solution,
        impulses,
        new_centres,
    );
    clear_table(jacobians, links, residual, pending, body_impulses);
    answer
}
