// The position solve with less stack, of a table of at most 128 rows and 64 bodies: 128 * 127 / 2 = 8,128 pairs at most. It differs from position_solve in its sizes alone, and has one kind.

#![tactic(auto)]

ghost use Rattle.std.specs.Prelude.{◌≡◌, true, ◌≤◌, length};
ghost use Rattle.refusals.specs.Told.{told};
ghost use Rattle.rules.specs.Rows.{rules_in};
ghost use Rattle.kapitsa_joint.specs.declared.kind.Kind.TheVariants.{Position};
ghost use Rattle.preconditioner.specs.Mode.{mode_of};
ghost use Rattle.solve_method.specs.Position.{position_of};
ghost use Rattle.own_memory.specs.Job.{job_fits, JobSolved, FactorRoom};

use kapitsa_joint::Kind;
use own_memory::job_fits;
use pcg::solve_position_pcg_prepared;
use position_delivery::PositionPcgResult;
use preconditioner::{Mode, order_room, pattern_room, values_room};
use refusals::Refusal;

// With memory for the compact table and the vectors.
fn with_vectors(
    numbers: &mut [f64],
    words: &[u32],
    masses: &[f64],
    centres: &[f64],
    rows: u32,
    bodies: u32,
    rule_words: &[u32],
    rule_tolerances: &[f64],
    limit: u32,
    mode: u32,
    shift: f64,
    solution: &mut [f64],
    impulses: &mut [f64],
    new_centres: &mut [f64],
    rule_numbers: &mut [u32],
    pattern: &mut [u32],
    order: &mut [u32],
    values: &mut [f64],
) -> Result<PositionPcgResult, Refusal>
    requires rule_numbers_value { job_fits Position rows bodies mode (length numbers.old) (length words.now) (length masses.now) (length solution.old) (length impulses.old) (length centres.now) (length new_centres.old) (length rule_words.now) (length rule_tolerances.now) (length rule_numbers.old) 0 ≡ true }
    requires rows_bound { (rows ≤ 128) × (bodies ≤ 64) }
    requires factor_room { FactorRoom mode rows (length pattern.old) (length order.old) (length values.old) }
    ensures { JobSolved true (rules_in rule_words.now rule_tolerances.now) (position_of rows bodies numbers.entry.now words.now masses.now centres.now (rules_in rule_words.now rule_tolerances.now) shift) (mode_of mode shift) limit 24 rows record { numbers = numbers.entry.now; solution = solution.old; impulses = impulses.old; centres = new_centres.old } record { numbers = numbers.exit.now; solution = solution.new; impulses = impulses.new; centres = new_centres.new } rule_numbers.old rule_numbers.new (told result) }
{
    let mut jacobians: [f64; 1536] = [0.0; 1536];
    let mut links: [u32; 256] = [0; 256];
    let mut tolerances: [f64; 128] = [0.0; 128];
    let mut diagonal: [f64; 128] = [0.0; 128];
    let mut residual: [f64; 128] = [0.0; 128];
    let mut pending: [f64; 128] = [0.0; 128];
    let mut direction: [f64; 128] = [0.0; 128];
    let mut product: [f64; 128] = [0.0; 128];
    let mut body_impulses: [f64; 384] = [0.0; 384];
    let n = rows as usize;
    let b = bodies as usize;
    let jacobian_numbers = 12 * n;
    let body_links = 2 * n;
    let body_numbers = 6 * b;
    solve_position_pcg_prepared(
        numbers,
        words,
        masses,
        centres,
        rows,
        bodies,
        rule_words,
        rule_tolerances,
        limit,
        mode,
        shift,
        solution,
        impulses,
        new_centres,
        rule_numbers,
        &mut jacobians[..jacobian_numbers],
        &mut links[..body_links],
        &mut tolerances[..n],
        &mut diagonal[..n],
        &mut residual[..n],
        &mut pending[..n],
        &mut direction[..n],
        &mut product[..n],
        &mut body_impulses[..body_numbers],
        pattern,
        order,
        values,
    )
}

// Mode 1: starts and columns, the index by column and the numbers of 8,128 pairs.
fn with_factor(
    numbers: &mut [f64],
    words: &[u32],
    masses: &[f64],
    centres: &[f64],
    rows: u32,
    bodies: u32,
    rule_words: &[u32],
    rule_tolerances: &[f64],
    limit: u32,
    mode: u32,
    shift: f64,
    solution: &mut [f64],
    impulses: &mut [f64],
    new_centres: &mut [f64],
    rule_numbers: &mut [u32],
) -> Result<PositionPcgResult, Refusal>
    requires rule_numbers_value { job_fits Position rows bodies mode (length numbers.old) (length words.now) (length masses.now) (length solution.old) (length impulses.old) (length centres.now) (length new_centres.old) (length rule_words.now) (length rule_tolerances.now) (length rule_numbers.old) 0 ≡ true }
    requires rows_bound { (rows ≤ 128) × (bodies ≤ 64) }
    requires mode_value { mode ≡ 1 }
    ensures { JobSolved true (rules_in rule_words.now rule_tolerances.now) (position_of rows bodies numbers.entry.now words.now masses.now centres.now (rules_in rule_words.now rule_tolerances.now) shift) (mode_of mode shift) limit 24 rows record { numbers = numbers.entry.now; solution = solution.old; impulses = impulses.old; centres = new_centres.old } record { numbers = numbers.exit.now; solution = solution.new; impulses = impulses.new; centres = new_centres.new } rule_numbers.old rule_numbers.new (told result) }
{
    let mut pattern: [u32; 8257] = [0; 8257];
    let mut order: [u32; 16384] = [0; 16384];
    let mut values: [f64; 8128] = [0.0; 8128];
    let pattern_words = pattern_room(Mode::IncompleteCholesky(0.0), rows);
    let order_words = order_room(Mode::IncompleteCholesky(0.0), rows);
    let value_numbers = values_room(Mode::IncompleteCholesky(0.0), rows);
    with_vectors(
        numbers,
        words,
        masses,
        centres,
        rows,
        bodies,
        rule_words,
        rule_tolerances,
        limit,
        mode,
        shift,
        solution,
        impulses,
        new_centres,
        rule_numbers,
        &mut pattern[..pattern_words],
        &mut order[..order_words],
        &mut values[..value_numbers],
    )
}

// Mode 2: the joint of each row, and 36 numbers a row.
fn with_blocks(
    numbers: &mut [f64],
    words: &[u32],
    masses: &[f64],
    centres: &[f64],
    rows: u32,
    bodies: u32,
    rule_words: &[u32],
    rule_tolerances: &[f64],
    limit: u32,
    mode: u32,
    shift: f64,
    solution: &mut [f64],
    impulses: &mut [f64],
    new_centres: &mut [f64],
    rule_numbers: &mut [u32],
) -> Result<PositionPcgResult, Refusal>
    requires rule_numbers_value { job_fits Position rows bodies mode (length numbers.old) (length words.now) (length masses.now) (length solution.old) (length impulses.old) (length centres.now) (length new_centres.old) (length rule_words.now) (length rule_tolerances.now) (length rule_numbers.old) 0 ≡ true }
    requires rows_bound { (rows ≤ 128) × (bodies ≤ 64) }
    requires mode_value { mode ≡ 2 }
    ensures { JobSolved true (rules_in rule_words.now rule_tolerances.now) (position_of rows bodies numbers.entry.now words.now masses.now centres.now (rules_in rule_words.now rule_tolerances.now) shift) (mode_of mode shift) limit 24 rows record { numbers = numbers.entry.now; solution = solution.old; impulses = impulses.old; centres = new_centres.old } record { numbers = numbers.exit.now; solution = solution.new; impulses = impulses.new; centres = new_centres.new } rule_numbers.old rule_numbers.new (told result) }
{
    let mut pattern: [u32; 128] = [0; 128];
    let mut order: [u32; 0] = [0; 0];
    let mut values: [f64; 4608] = [0.0; 4608];
    let pattern_words = pattern_room(Mode::BlockJacobi, rows);
    let value_numbers = values_room(Mode::BlockJacobi, rows);
    with_vectors(
        numbers,
        words,
        masses,
        centres,
        rows,
        bodies,
        rule_words,
        rule_tolerances,
        limit,
        mode,
        shift,
        solution,
        impulses,
        new_centres,
        rule_numbers,
        &mut pattern[..pattern_words],
        &mut order,
        &mut values[..value_numbers],
    )
}

// Mode 0 has no factor.
fn with_diagonal(
    numbers: &mut [f64],
    words: &[u32],
    masses: &[f64],
    centres: &[f64],
    rows: u32,
    bodies: u32,
    rule_words: &[u32],
    rule_tolerances: &[f64],
    limit: u32,
    mode: u32,
    shift: f64,
    solution: &mut [f64],
    impulses: &mut [f64],
    new_centres: &mut [f64],
    rule_numbers: &mut [u32],
) -> Result<PositionPcgResult, Refusal>
    requires rule_numbers_value { job_fits Position rows bodies mode (length numbers.old) (length words.now) (length masses.now) (length solution.old) (length impulses.old) (length centres.now) (length new_centres.old) (length rule_words.now) (length rule_tolerances.now) (length rule_numbers.old) 0 ≡ true }
    requires rows_bound { (rows ≤ 128) × (bodies ≤ 64) }
    requires mode_value { mode ≡ 0 }
    ensures { JobSolved true (rules_in rule_words.now rule_tolerances.now) (position_of rows bodies numbers.entry.now words.now masses.now centres.now (rules_in rule_words.now rule_tolerances.now) shift) (mode_of mode shift) limit 24 rows record { numbers = numbers.entry.now; solution = solution.old; impulses = impulses.old; centres = new_centres.old } record { numbers = numbers.exit.now; solution = solution.new; impulses = impulses.new; centres = new_centres.new } rule_numbers.old rule_numbers.new (told result) }
{
    let mut pattern: [u32; 0] = [0; 0];
    let mut order: [u32; 0] = [0; 0];
    let mut values: [f64; 0] = [0.0; 0];
    with_vectors(
        numbers,
        words,
        masses,
        centres,
        rows,
        bodies,
        rule_words,
        rule_tolerances,
        limit,
        mode,
        shift,
        solution,
        impulses,
        new_centres,
        rule_numbers,
        &mut pattern,
        &mut order,
        &mut values,
    )
}

// Solution, impulses and accumulated multipliers are written only where the answer is accepted.
pub fn solve_small_position(
    numbers: &mut [f64],
    words: &[u32],
    masses: &[f64],
    centres: &[f64],
    rows: u32,
    bodies: u32,
    rule_words: &[u32],
    rule_tolerances: &[f64],
    limit: u32,
    mode: u32,
    shift: f64,
    solution: &mut [f64],
    impulses: &mut [f64],
    new_centres: &mut [f64],
    rule_numbers: &mut [u32],
) -> Result<PositionPcgResult, Refusal>
    requires { (rows ≤ 128) × (bodies ≤ 64) }
    ensures { JobSolved (job_fits Position rows bodies mode (length numbers.entry.now) (length words.now) (length masses.now) (length solution.old) (length impulses.old) (length centres.now) (length new_centres.old) (length rule_words.now) (length rule_tolerances.now) (length rule_numbers.old) 0) (rules_in rule_words.now rule_tolerances.now) (position_of rows bodies numbers.entry.now words.now masses.now centres.now (rules_in rule_words.now rule_tolerances.now) shift) (mode_of mode shift) limit 24 rows record { numbers = numbers.entry.now; solution = solution.old; impulses = impulses.old; centres = new_centres.old } record { numbers = numbers.exit.now; solution = solution.new; impulses = impulses.new; centres = new_centres.new } rule_numbers.old rule_numbers.new (told result) }
{
    if !job_fits(
        Kind::Position,
        rows,
        bodies,
        mode,
        numbers.len(),
        words.len(),
        masses.len(),
        solution.len(),
        impulses.len(),
        centres.len(),
        new_centres.len(),
        rule_words.len(),
        rule_tolerances.len(),
        rule_numbers.len(),
        0,
    ) {
        return Err(Refusal::Length);
    }
    if mode == 0 {
        return with_diagonal(
            numbers,
            words,
            masses,
            centres,
            rows,
            bodies,
            rule_words,
            rule_tolerances,
            limit,
            mode,
            shift,
            solution,
            impulses,
            new_centres,
            rule_numbers,
        );
    }
    if mode == 1 {
        return with_factor(
            numbers,
            words,
            masses,
            centres,
            rows,
            bodies,
            rule_words,
            rule_tolerances,
            limit,
            mode,
            shift,
            solution,
            impulses,
            new_centres,
            rule_numbers,
        );
    }
    with_blocks(
        numbers,
        words,
        masses,
        centres,
        rows,
        bodies,
        rule_words,
        rule_tolerances,
        limit,
        mode,
        shift,
        solution,
        impulses,
        new_centres,
        rule_numbers,
    )
}
