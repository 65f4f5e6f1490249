// Closing a round after the first: the board's own cells.
ghost use Rattle.std.specs.Prelude.{◌≡◌, ◌≤◌, length};
ghost use Rattle.protocol.specs.Rounds.{copy_own};
ghost use Rattle.tree.specs.Places.{cell_count};

use codec::value::{VALUE_SIZE, Value};
use frames::seat::Seat;
use frames::writing::write_at;
use protocol::limits::VALUES;
use storing::storing::store_at;
use walk::nodes::carried_nodes;

// The board copies its own cells to its own children.
pub fn copy_own(seat: &Seat, cells: &mut [Value])
    requires later { 2 ≤ seat.now.round.0 }
    requires enough { cell_count seat.now.tabled.plan.n ≤ length cells.old }
    ensures { cells.new ≡ copy_own seat.now.tabled.plan seat.now.board seat.now.round cells.old }
{
    let plan = seat.tabled.plan;
    let board = seat.board;
    let level = seat.round.0 - 1;
    let mut nodes = [0u32; VALUES];
    let mut own = [0u8; VALUE_SIZE * VALUES];
    let count = carried_nodes(&seat.tabled, board, board, level, &mut nodes);
    let nodes = &nodes[0..count];
    write_at(plan, level, nodes, cells, &mut own);
    let frame = &own[0..VALUE_SIZE * count];
    store_at(plan, level, board, nodes, frame, cells);
}
