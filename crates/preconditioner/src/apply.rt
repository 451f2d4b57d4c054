// z from the residual: apply_velocity_preconditioner and apply_block_jacobi_preconditioner of pcg.rs.
ghost use Rattle.std.specs.Prelude.{◌≡◌, ◌+◌, ◌*◌, ◌≤◌, length};
ghost use Rattle.sparse.specs.Kept.{numbers};
ghost use Rattle.pairs.specs.Pattern.{starts_in, columns_in};
ghost use Rattle.triangular.specs.Triangular.{solve_run, or_sixteen};
ghost use Rattle.triangular.specs.Answers.{solve_out, solved_out};
ghost use Rattle.block_jacobi.specs.Runs.{owner_in};
ghost use Rattle.block_jacobi.specs.Blocks.{block_in};
ghost use Rattle.preconditioner.specs.Apply.{diagonal_solve_of, preconditioned_run};
ghost use Rattle.preconditioner.specs.Held.{FactorReady, Ready};

use block_jacobi::apply_block_jacobi_preconditioner;
use triangular::{Overflow, solve};

// What was built: nothing beside the diagonal, a factor with so many places, or blocks.
#[derive(Clone, Copy)]
pub enum Preconditioner {
    Diagonal,
    IncompleteCholesky(u32),
    BlockJacobi,
}

fn diagonal_solve(residual: &[f64], diagonal: &[f64], output: &mut [f64])
    requires { (length residual.now ≡ length output.old) × (length diagonal.now ≡ length output.old) }
    ensures { output.new ≡ diagonal_solve_of residual.now diagonal.now }
{
    for i in 0..residual.len() {
        output[i] = residual[i] / diagonal[i];
    }
}

// Starts and columns are the two parts of the pattern.
fn solve_factor(
    pattern: &[u32],
    order: &[u32],
    count: u32,
    values: &[f64],
    pivots: &[f64],
    residual: &[f64],
    output: &mut [f64],
) -> Result<(), Overflow>
    requires factor_ready { FactorReady (length output.old) count record { diagonal = pivots.now; pattern = pattern.now; order = order.now; values = values.now } }
    requires pivots_len { (length pivots.now ≡ length output.old) × (length residual.now ≡ length output.old) }
    ensures { solve_run (numbers (starts_in (length output.old) pattern.now) (columns_in (length output.old) pattern.now) values.now) pivots.now residual.now output.old
        ≡ solve_out result output.new }
{
    let ends = output.len() + 1;
    solve(
        &pattern[..ends],
        &pattern[ends..],
        order,
        count,
        values,
        pivots,
        residual,
        output,
    )
}

// The two triangular solves and the blocks' solves start from +0.0, so that z depends on nothing that stood there.
pub fn apply_preconditioner(
    preconditioner: Preconditioner,
    diagonal: &[f64],
    pattern: &[u32],
    order: &[u32],
    values: &[f64],
    residual: &[f64],
    output: &mut [f64],
) -> Result<(), Overflow>
    requires ready { Ready preconditioner (length residual.now) record { diagonal = diagonal.now; pattern = pattern.now; order = order.now; values = values.now } }
    requires residual_len { length residual.now ≡ length output.old }
    ensures residual_value { preconditioned_run preconditioner diagonal.now (numbers (starts_in (length residual.now) pattern.now) (columns_in (length residual.now) pattern.now) values.now) (block_in values.now) (owner_in pattern.now) residual.now
        ≡ solve_out result output.new }
    ensures residual_value_2 { or_sixteen (preconditioned_run preconditioner diagonal.now (numbers (starts_in (length residual.now) pattern.now) (columns_in (length residual.now) pattern.now) values.now) (block_in values.now) (owner_in pattern.now) residual.now)
        ≡ solved_out result output.new }
{
    match preconditioner {
        Preconditioner::Diagonal => {
            diagonal_solve(residual, diagonal, output);
            Ok(())
        }
        Preconditioner::IncompleteCholesky(count) => {
            loops::clear(output);
            solve_factor(pattern, order, count, values, diagonal, residual, output)
        }
        Preconditioner::BlockJacobi => {
            loops::clear(output);
            apply_block_jacobi_preconditioner(pattern, values, residual, output)
        }
    }
}
