// The solves of one block, on its own stretch of the output: apply_block_jacobi_preconditioner of pcg.rs.
ghost use Rattle.std.specs.Prelude.{◌≡◌, ◌+◌, ◌*◌, ◌-◌, ◌<◌, ◌≤◌, length, get_or, set};
ghost use Rattle.std.specs.Float.{nan};
ghost use Rattle.sparse.specs.Count.{count};
ghost use Rattle.triangular.specs.Answers.{solve_out};
ghost use Rattle.block_factor.specs.Solves.{block_forward_less, block_forward_turn, block_backward_less, block_backward_of, block_backward_run, block_solve_run};

use triangular::Overflow;

// `value` less the products of row `row` with what the earlier rows have.
fn less_earlier(value: f64, lower: &[f64], part: &[f64], row: usize) -> f64
    requires { (length lower.now ≡ 36) × (row < 6) × (row < length part.now) }
    ensures { result ≡ count (block_forward_less lower.now part.now row) value row }
{
    let mut rest = value;
    for k in 0..row {
        rest = rest - lower[row * 6 + k] * part[k];
    }
    rest
}

fn forward(lower: &[f64], residual: &[f64], part: &mut [f64])
    requires { (length lower.now ≡ 36) × (length part.old ≤ 6) × (length residual.now ≡ length part.old) }
    ensures { part.new ≡ count (block_forward_turn lower.now residual.now) part.old (length residual.now) }
{
    for row in 0..residual.len() {
        let value = less_earlier(residual[row], lower, part, row);
        part[row] = value / lower[row * 6 + row];
    }
}

// `value` less the products of column `row` with what the `below` rows below it have.
fn less_later(value: f64, lower: &[f64], part: &[f64], row: usize, below: usize) -> f64
    requires { (length lower.now ≡ 36) × (length part.now ≤ 6) × (row + 1 + below ≡ length part.now) }
    ensures { result ≡ count (block_backward_less lower.now part.now row) value below }
{
    let mut rest = value;
    for k in 0..below {
        let lower_row = row + 1 + k;
        rest = rest - lower[lower_row * 6 + row] * part[lower_row];
    }
    rest
}

#[tactic(auto, unfolding(crate::specs::Solves::block_backward_of, loops::specs::Run::check))]
fn backward_at(lower: &[f64], part: &mut [f64], row: usize) -> Result<(), Overflow>
    requires { (length lower.now ≡ 36) × (length part.old ≤ 6) × (row < length part.old) }
    ensures { block_backward_of lower.now (length part.old) row part.old ≡ solve_out result part.new }
{
    let below = part.len() - 1 - row;
    let value = less_later(part[row], lower, part, row, below) / lower[row * 6 + row];
    part[row] = value;
    if !binary64::is_finite(value) {
        return Err(Overflow);
    }
    Ok(())
}

fn backward(lower: &[f64], part: &mut [f64]) -> Result<(), Overflow>
    requires { (length lower.now ≡ 36) × (length part.old ≤ 6) }
    ensures { block_backward_run lower.now (length part.old) part.old ≡ solve_out result part.new }
{
    let len = part.len();
    for t in 0..len {
        let row = len - 1 - t;
        backward_at(lower, part, row)?;
    }
    Ok(())
}

fn solve_rows(lower: &[f64], residual: &[f64], part: &mut [f64]) -> Result<(), Overflow>
    requires { (length lower.now ≡ 36) × (length part.old ≤ 6) × (length residual.now ≡ length part.old) }
    ensures { block_solve_run lower.now residual.now part.old ≡ solve_out result part.new }
{
    forward(lower, residual, part);
    backward(lower, part)
}

// `lower` is the block's 36 numbers where they stand; `residual` and `part` are its stretches: nothing else of the output can be touched.
// The number of rows is a constant in each arm, so that the compiler writes the loops out, which halves the instructions.
pub fn solve_block(lower: &[f64], residual: &[f64], part: &mut [f64]) -> Result<(), Overflow>
    requires { (length lower.now ≡ 36) × (length part.old ≤ 6) × (length residual.now ≡ length part.old) }
    ensures { block_solve_run lower.now residual.now part.old ≡ solve_out result part.new }
{
    match part.len() {
        1 => solve_rows(lower, &residual[..1], &mut part[..1]),
        2 => solve_rows(lower, &residual[..2], &mut part[..2]),
        3 => solve_rows(lower, &residual[..3], &mut part[..3]),
        4 => solve_rows(lower, &residual[..4], &mut part[..4]),
        5 => solve_rows(lower, &residual[..5], &mut part[..5]),
        6 => solve_rows(lower, &residual[..6], &mut part[..6]),
        _ => solve_rows(lower, residual, part),
    }
}
