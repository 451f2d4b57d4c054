// The solves with all blocks: apply_block_jacobi_preconditioner of pcg.rs.
ghost use Rattle.std.specs.Prelude.{◌≡◌, ◌+◌, ◌*◌, ◌≤◌, length};
ghost use Rattle.triangular.specs.Answers.{solve_out};
ghost use Rattle.block_jacobi.specs.Runs.{owner_in, RunsFit};
ghost use Rattle.block_jacobi.specs.Blocks.{block_in, blocks_solve_run};

use crate::run::run_length;
use block_factor::solve_block;
use triangular::Overflow;

// Each block is lent its own stretch of the residual and of the output.
pub fn apply_block_jacobi_preconditioner(
    owners: &[u32],
    blocks: &[f64],
    residual: &[f64],
    output: &mut [f64],
) -> Result<(), Overflow>
    requires owners_len { (length owners.now ≡ length output.old) × (length residual.now ≡ length output.old) × (36 * length output.old ≤ length blocks.now) }
    requires runs_fit { RunsFit (owner_in owners.now) (length owners.now) }
    ensures { blocks_solve_run (block_in blocks.now) (owner_in owners.now) residual.now output.old ≡ solve_out result output.new }
{
    let mut start = 0;
    while start < owners.len() {
        let len = run_length(owners, start);
        let end = start + len;
        let at = 36 * start;
        solve_block(
            &blocks[at..at + 36],
            &residual[start..end],
            &mut output[start..end],
        )?;
        start = end;
    }
    Ok(())
}
