// What a solve of either kind proposes, by rules, centres and a residual that are lent in the right lengths: solve_position_pcg_prepared and solve_velocity_pcg_prepared of pcg.rs up to the accumulated numbers, with every refusal of documents 01 and 02 but 3 of these.
ghost use Rattle.std.specs.Prelude.{◌≡◌, ◌*◌, ◌≤◌, length};
ghost use Rattle.refusals.specs.Told.{told};
ghost use Rattle.rules.specs.Rows.{rules_in};
ghost use Rattle.preconditioner.specs.Mode.{mode_of};
ghost use Rattle.kapitsa_joint.specs.Kind.{place_of, placed_of};
ghost use Rattle.position.specs.Kinds.{GivenRoom};
ghost use Rattle.solve_method.specs.Position.{solve_for};
ghost use Rattle.work_memory.specs.Work.{work_memory};
ghost use Rattle.work_memory.specs.Lengths.{passes3};
ghost use Rattle.position_delivery.specs.Delivery.{committed_by};
ghost use Rattle.solve_by_rules.specs.SolveHeld.{SolveHeld};

use joint_refusals::{centres_finite, counts_fit};
use kapitsa_joint::{Kind, place_of, placed_of};
use position_delivery::{PositionPcgResult, propose_and_clear};
use position_steps::{count_steps, open_table};
use preconditioner::mode_of;
use refusals::Refusal;
use work_memory::{factor_fits, table_fits, vectors_fit};

// The rows are only read (document 02, l); the contract tells what a commit then makes of them. Solution, impulses and centres are written only where the answer is accepted; the work memory is +0.0 (integers 0) afterwards, except after refusal 3, which writes nothing.
pub fn propose_by_rules(
    kind: Kind,
    numbers: &[f64],
    words: &[u32],
    masses: &[f64],
    centres: &[f64],
    rows: u32,
    bodies: u32,
    rule_words: &[u32],
    rule_tolerances: &[f64],
    given: &[f64],
    limit: u32,
    mode: u32,
    shift: f64,
    solution: &mut [f64],
    impulses: &mut [f64],
    new_centres: &mut [f64],
    jacobians: &mut [f64],
    links: &mut [u32],
    tolerances: &mut [f64],
    diagonal: &mut [f64],
    residual: &mut [f64],
    pending: &mut [f64],
    direction: &mut [f64],
    product: &mut [f64],
    body_impulses: &mut [f64],
    pattern: &mut [u32],
    order: &mut [u32],
    values: &mut [f64],
) -> Result<PositionPcgResult, Refusal>
    requires rule_tolerances_in_bounds { 3 * length rule_tolerances.now ≤ length rule_words.now }
    requires centres_len { (length centres.now ≡ 3 * placed_of kind bodies) × (length new_centres.old ≡ 3 * placed_of kind bodies) × GivenRoom kind (length given.now) rows }
    ensures { SolveHeld (passes3 rows bodies mode numbers.entry.now words.now masses.now solution.old impulses.old (work_memory jacobians.old links.old tolerances.old diagonal.old residual.old pending.old direction.old product.old body_impulses.old pattern.old order.old values.old))
        (solve_for kind rows bodies numbers.entry.now words.now masses.now centres.now given.now (rules_in rule_words.now rule_tolerances.now) shift) (mode_of mode shift) limit (place_of kind) rows
        record { numbers = numbers.entry.now; solution = solution.old; impulses = impulses.old; centres = new_centres.old } record { numbers = committed_by (place_of kind) (told result) numbers.entry.now solution.new; solution = solution.new; impulses = impulses.new; centres = new_centres.new } (told result)
        (work_memory jacobians.old links.old tolerances.old diagonal.old residual.old pending.old direction.old product.old body_impulses.old pattern.old order.old values.old)
        (work_memory jacobians.new links.new tolerances.new diagonal.new residual.new pending.new direction.new product.new body_impulses.new pattern.new order.new values.new) }
{
    let fits = counts_fit(rows, bodies, mode)
        & table_fits(
            rows,
            bodies,
            numbers.len(),
            words.len(),
            masses.len(),
            solution.len(),
            impulses.len(),
        )
        & vectors_fit(
            rows,
            bodies,
            jacobians.len(),
            links.len(),
            tolerances.len(),
            residual.len(),
            pending.len(),
            direction.len(),
            product.len(),
            body_impulses.len(),
        )
        & factor_fits(
            mode_of(mode, 0.0),
            rows,
            diagonal.len(),
            pattern.len(),
            order.len(),
            values.len(),
        );
    if !fits {
        return Err(Refusal::Length);
    }
    let placed = placed_of(kind, bodies);
    let opened = open_table(
        kind,
        numbers,
        words,
        masses,
        rows,
        bodies,
        rule_words,
        rule_tolerances,
        given,
        limit,
        shift,
        centres_finite(centres, placed as usize),
    );
    let counted = count_steps(
        opened,
        kind,
        numbers,
        words,
        masses,
        rows,
        bodies,
        rule_words,
        rule_tolerances,
        given,
        limit,
        mode_of(mode, shift),
        jacobians,
        links,
        tolerances,
        diagonal,
        residual,
        pending,
        direction,
        product,
        body_impulses,
        pattern,
        order,
        values,
    );
    propose_and_clear(
        counted,
        limit,
        place_of(kind),
        placed,
        numbers,
        words,
        masses,
        centres,
        rows,
        bodies,
        jacobians,
        links,
        residual,
        pending,
        body_impulses,
        solution,
        impulses,
        new_centres,
    )
}
