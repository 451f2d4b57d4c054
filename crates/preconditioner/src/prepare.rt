// The factor of the mode, in lent memory.
ghost use Rattle.std.specs.Prelude.{◌≡◌, ◌*◌, ◌≤◌, length};
ghost use Rattle.mass_operator.specs.System.{compact_system};
ghost use Rattle.compact_table.specs.Compact.{Linked};
ghost use Rattle.refusals.specs.Told.{told};
ghost use Rattle.preconditioner.specs.Room.{Roomy};
ghost use Rattle.preconditioner.specs.Held.{joints_in, FactorBuilt};

use crate::apply::Preconditioner;
use crate::mode::Mode;
use crate::owner::gather_owners;
use crate::shift::shift_diagonal;
use block_jacobi::build_block_jacobi_preconditioner;
use incomplete_cholesky::build_incomplete_cholesky_preconditioner;
use pairs::pair_room;
use refusals::Refusal;

// Made of the diagonal that stands in `diagonal`.
pub fn build_preconditioner(
    mode: Mode,
    words: &[u32],
    jacobians: &[f64],
    links: &[u32],
    masses: &[f64],
    rows: u32,
    bodies: usize,
    diagonal: &mut [f64],
    pattern: &mut [u32],
    order: &mut [u32],
    values: &mut [f64],
) -> Result<Preconditioner, Refusal>
    requires words_len { (length words.now ≡ 8 * rows) × (12 * rows ≤ length jacobians.now) × (2 * rows ≤ length links.now) × (10 * bodies ≤ length masses.now) }
    requires linked { Linked links.now rows bodies }
    requires roomy { Roomy mode rows record { diagonal = diagonal.now; pattern = pattern.old; order = order.old; values = values.old } }
    ensures { FactorBuilt (compact_system rows bodies jacobians.now links.now masses.now) (joints_in words.now)
        record { diagonal = diagonal.entry.now; pattern = pattern.old; order = order.old; values = values.old }
        record { diagonal = diagonal.exit.now; pattern = pattern.new; order = order.new; values = values.new }
        mode (told result) }
{
    match mode {
        Mode::Diagonal => Ok(Preconditioner::Diagonal),
        Mode::IncompleteCholesky(shift) => {
            shift_diagonal(diagonal, shift);
            let count = build_incomplete_cholesky_preconditioner(
                jacobians,
                links,
                masses,
                rows,
                bodies,
                diagonal,
                pattern,
                order,
                values,
                pair_room(rows),
            )?;
            Ok(Preconditioner::IncompleteCholesky(count))
        }
        Mode::BlockJacobi => {
            gather_owners(words, pattern);
            build_block_jacobi_preconditioner(jacobians, links, masses, pattern, bodies, values)?;
            Ok(Preconditioner::BlockJacobi)
        }
    }
}
