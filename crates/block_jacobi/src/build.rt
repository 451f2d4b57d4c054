// The factors of all blocks: build_velocity_block_jacobi_preconditioner of pcg.rs.
ghost use Rattle.std.specs.Prelude.{◌≡◌, ◌+◌, ◌*◌, ◌<◌, ◌≤◌, length};
ghost use Rattle.mass_operator.specs.System.{compact_system};
ghost use Rattle.compact_table.specs.Compact.{Linked};
ghost use Rattle.block_jacobi.specs.Runs.{owner_in};
ghost use Rattle.block_factor.specs.Answers.{block_row_turn, rows_run};
ghost use Rattle.block_jacobi.specs.Blocks.{blocks_run, blocked_out, filled_out};

use crate::run::run_length;
use crate::store::put_block;
use block_factor::cell_at;
use refusals::Refusal;

// Row `row` of the factor of the block that starts at `start`, where `lower` holds the rows before it.
fn fill_row(
    jacobians: &[f64],
    links: &[u32],
    masses: &[f64],
    rows: usize,
    bodies: usize,
    start: usize,
    row: usize,
    lower: &mut [f64; 36],
) -> Result<(), Refusal>
    requires rows_in_bounds { (12 * rows ≤ length jacobians.now) × (2 * rows ≤ length links.now) × (10 * bodies ≤ length masses.now) }
    requires linked { Linked links.now rows bodies }
    requires row_bound { (row < 6) × (start + row < rows) }
    ensures { block_row_turn (compact_system rows bodies jacobians.now links.now masses.now) start row lower.old ≡ filled_out result lower.new }
{
    for column in 0..row + 1 {
        let x = cell_at(
            jacobians, links, masses, rows, bodies, start, lower, row, column,
        )?;
        lower[row * 6 + column] = x;
    }
    Ok(())
}

// The factor of the block of the `len` rows from `start` on.
fn fill_block(
    jacobians: &[f64],
    links: &[u32],
    masses: &[f64],
    rows: usize,
    bodies: usize,
    start: usize,
    len: usize,
    lower: &mut [f64; 36],
) -> Result<(), Refusal>
    requires rows_in_bounds { (12 * rows ≤ length jacobians.now) × (2 * rows ≤ length links.now) × (10 * bodies ≤ length masses.now) }
    requires linked { Linked links.now rows bodies }
    requires len_bound { (len ≤ 6) × (start + len ≤ rows) }
    ensures { rows_run (compact_system rows bodies jacobians.now links.now masses.now) start len lower.old ≡ filled_out result lower.new }
{
    for row in 0..len {
        fill_row(jacobians, links, masses, rows, bodies, start, row, lower)?;
    }
    Ok(())
}

// A run that is too long, or the first row pair that is refused, ends the whole test: the answer is its refusal, 11, 12 or 13.
pub fn build_block_jacobi_preconditioner(
    jacobians: &[f64],
    links: &[u32],
    masses: &[f64],
    owners: &[u32],
    bodies: usize,
    blocks: &mut [f64],
) -> Result<(), Refusal>
    requires owners_in_bounds { (12 * length owners.now ≤ length jacobians.now) × (2 * length owners.now ≤ length links.now) × (10 * bodies ≤ length masses.now) × (36 * length owners.now ≤ length blocks.old) }
    requires linked { Linked links.now (length owners.now) bodies }
    ensures { blocks_run (compact_system (length owners.now) bodies jacobians.now links.now masses.now) (owner_in owners.now) blocks.old
        ≡ blocked_out result blocks.new }
{
    let rows = owners.len();
    let mut start = 0;
    while start < rows {
        let len = run_length(owners, start);
        if 6 < len {
            return Err(Refusal::Block);
        }
        let mut lower = [0.0; 36];
        fill_block(
            jacobians, links, masses, rows, bodies, start, len, &mut lower,
        )?;
        put_block(blocks, start, &lower);
        start += len;
    }
    Ok(())
}
