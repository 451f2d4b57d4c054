// Refusal 3 of the solve, of every length: true where it does not apply.
ghost use Rattle.std.specs.Prelude.{◌≡◌, ◌≤◌};
ghost use Rattle.work_memory.specs.Lengths.{table_fits, vectors_fit, factor_fits};

use loops::wide;
use preconditioner::{Mode, order_room, pattern_room, values_room};

// The lengths of rows, masses and what is delivered.
pub fn table_fits(
    rows: u32,
    bodies: u32,
    numbers: usize,
    words: usize,
    masses: usize,
    solution: usize,
    impulses: usize,
) -> bool
    ensures { result ≡ table_fits rows bodies numbers words masses solution impulses }
{
    let n = wide(rows);
    let b = wide(bodies);
    (numbers == 27 * n)
        & (words == 8 * n)
        & (masses == 10 * b)
        & (solution == n)
        & (impulses == 6 * b)
}

// Of the work memory: the compact table and the vectors,
pub fn vectors_fit(
    rows: u32,
    bodies: u32,
    jacobians: usize,
    links: usize,
    tolerances: usize,
    residual: usize,
    pending: usize,
    direction: usize,
    product: usize,
    body_impulses: usize,
) -> bool
    ensures { result ≡ vectors_fit rows bodies jacobians links tolerances residual pending direction product body_impulses }
{
    let n = wide(rows);
    let b = wide(bodies);
    (jacobians == 12 * n)
        & (links == 2 * n)
        & (tolerances == n)
        & (residual == n)
        & (pending == n)
        & (direction == n)
        & (product == n)
        & (body_impulses == 6 * b)
}

// and the factor's, by mode.
pub fn factor_fits(
    mode: Mode,
    rows: u32,
    diagonal: usize,
    pattern: usize,
    order: usize,
    values: usize,
) -> bool
    ensures { result ≡ factor_fits mode rows diagonal pattern order values }
{
    (diagonal == wide(rows))
        & (pattern == pattern_room(mode, rows))
        & (order == order_room(mode, rows))
        & (values == values_room(mode, rows))
}
