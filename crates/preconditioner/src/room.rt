// How long the lent memory of a factor is, by mode, for `rows` rows.
ghost use Rattle.std.specs.Prelude.{◌≡◌, ◌≤◌};
ghost use Rattle.preconditioner.specs.Room.{pattern_room, order_room, values_room};

use crate::mode::Mode;
use loops::wide;
use pairs::pair_room;

#[tactic(auto, unfolding(crate::specs::Room::pattern_room))]
pub fn pattern_room(mode: Mode, rows: u32) -> usize
    ensures { result ≡ pattern_room mode rows }
{
    match mode {
        Mode::Diagonal => 0,
        Mode::IncompleteCholesky(_) => wide(rows) + 1 + wide(pair_room(rows)),
        Mode::BlockJacobi => wide(rows),
    }
}

#[tactic(auto, unfolding(crate::specs::Room::order_room))]
pub fn order_room(mode: Mode, rows: u32) -> usize
    ensures { result ≡ order_room mode rows }
{
    match mode {
        Mode::Diagonal => 0,
        Mode::IncompleteCholesky(_) => wide(rows) + 2 * wide(pair_room(rows)),
        Mode::BlockJacobi => 0,
    }
}

#[tactic(auto, unfolding(crate::specs::Room::values_room))]
pub fn values_room(mode: Mode, rows: u32) -> usize
    ensures { result ≡ values_room mode rows }
{
    match mode {
        Mode::Diagonal => 0,
        Mode::IncompleteCholesky(_) => wide(pair_room(rows)),
        Mode::BlockJacobi => 36 * wide(rows),
    }
}
