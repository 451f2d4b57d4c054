// One number of the factor of a block: the inmost loop of build_velocity_block_jacobi_preconditioner of pcg.rs.
ghost use Rattle.std.specs.Prelude.{◌≡◌, ◌+◌, ◌*◌, ◌<◌, ◌≤◌, length, set};
ghost use Rattle.kapitsa_joint.specs.Mass.{mass_of};
ghost use Rattle.compact_table.specs.Compact.{compact_of};
ghost use Rattle.mass_operator.specs.System.{compact_system};
ghost use Rattle.compact_table.specs.Compact.{Linked};
ghost use Rattle.block_factor.specs.Blocks.{block_value, one_pair, less_of, cell_of};
ghost use Rattle.block_factor.specs.Answers.{cell_run};
ghost use Rattle.refusals.specs.Told.{told};

use compact_table::compact_at;
use kapitsa_joint::{RowJacobian, mass_at};
use loops::wide;
use pairs::cross_value;
use refusals::Refusal;
use sparse::{is_fit, pivot_root};

// `p` is the higher row, or the row itself.
#[tactic(auto, unfolding(crate::specs::Blocks::block_value))]
fn block_value(masses: &[f64], p: RowJacobian, q: RowJacobian) -> f64
    requires { (10 * p.body_a + 10 ≤ length masses.now) × (10 * p.body_b + 10 ≤ length masses.now) }
    ensures { result ≡ block_value (mass_of masses.now) p q }
{
    let a = cross_value(
        mass_at(masses, wide(p.body_a)),
        p.linear_a,
        p.angular_a,
        q.linear_a,
        q.angular_a,
    );
    let b = cross_value(
        mass_at(masses, wide(p.body_b)),
        p.linear_b,
        p.angular_b,
        q.linear_b,
        q.angular_b,
    );
    a + b
}

#[tactic(auto, unfolding(crate::specs::Blocks::one_pair))]
fn one_pair(p: RowJacobian, q: RowJacobian) -> bool
    ensures { result ≡ one_pair p q }
{
    (p.body_a == q.body_a) & (p.body_b == q.body_b)
}

// The value less the products of two rows over the columns before `column`.
fn less_rows(value: f64, lower: &[f64; 36], row: usize, column: usize) -> f64
    requires { (row < 6) × (column ≤ row) }
    ensures { result ≡ less_of lower.now row column value }
{
    let mut rest = value;
    for k in 0..column {
        rest = rest - lower[row * 6 + k] * lower[column * 6 + k];
    }
    rest
}

// The number of the factor that a reduced value gives: 12 and 13.
#[tactic(auto, unfolding(crate::specs::Blocks::cell_of, crate::specs::Blocks::block_pivot, crate::specs::Blocks::block_factor, sparse::specs::Cholesky::fit, loops::specs::Run::check))]
fn cell_from(value: f64, lower: &[f64; 36], row: usize, column: usize) -> Result<f64, Refusal>
    requires { (row < 6) × (column ≤ row) }
    ensures { cell_of lower.now row column value ≡ told result }
{
    if !binary64::is_finite(value) {
        return Err(Refusal::Value);
    }
    if row == column {
        if !is_fit(value) {
            return Err(Refusal::Pivot);
        }
        return Ok(pivot_root(value));
    }
    let factor = value / lower[column * 6 + column];
    if !binary64::is_finite(factor) {
        return Err(Refusal::Pivot);
    }
    Ok(factor)
}

// Row and column of the block that starts at `start`: 11, then 12 and 13.
pub fn cell_at(
    jacobians: &[f64],
    links: &[u32],
    masses: &[f64],
    rows: usize,
    bodies: usize,
    start: usize,
    lower: &[f64; 36],
    row: usize,
    column: usize,
) -> Result<f64, Refusal>
    requires rows_in_bounds { (12 * rows ≤ length jacobians.now) × (2 * rows ≤ length links.now) × (10 * bodies ≤ length masses.now) }
    requires linked { Linked links.now rows bodies }
    requires row_bound { (row < 6) × (column ≤ row) × (start + row < rows) }
    ensures { cell_run (compact_system rows bodies jacobians.now links.now masses.now) start row column lower.now ≡ told result }
{
    let p = compact_at(jacobians, links, start + row);
    let q = compact_at(jacobians, links, start + column);
    if !one_pair(p, q) {
        return Err(Refusal::Block);
    }
    let value = less_rows(block_value(masses, p, q), lower, row, column);
    cell_from(value, lower, row, column)
}
