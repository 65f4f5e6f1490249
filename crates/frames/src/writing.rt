// Which frames are due, and writing one.
ghost use Rattle.std.specs.Prelude.{◌≡◌, map, ◌++◌, ◌*◌, length, drop};
ghost use Rattle.codec.specs.Codec.{current, value_size, encode};
ghost use Rattle.protocol.specs.Nodes.{read, due};
ghost use Rattle.frames.specs.Nodes.{labels_of, Writable};

use crate::seat::Seat;
use codec::value::{Value, put_value};
use internal::node::index_of;
use levels::levels::level_start;
use plan::plan::Plan;
use protocol::limits::VALUES;
use walk::nodes::carried_nodes;

// Is a frame due from board q to a board that keeps cells?
pub fn is_due(seat: &Seat, q: u8) -> bool
    ensures { result ≡ due seat.now.tabled.plan q seat.now.board seat.now.round }
{
    let plan = seat.tabled.plan;
    let board = seat.board;
    if plan.n <= q || q == board {
        return false;
    }
    if seat.round.0 == 1 {
        return q == plan.dealer;
    }
    let mut nodes = [0u32; VALUES];
    0 < carried_nodes(&seat.tabled, board, q, seat.round.0 - 1, &mut nodes)
}

// The values of the nodes' cells are written.
pub fn write_at(plan: Plan, level: u8, nodes: &[u32], cells: &[Value], out: &mut [u8])
    requires { Writable plan level nodes.now cells.now out.old }
    ensures { out.new ≡ encode current (map (read plan cells.now) (labels_of plan level nodes.now)) ++ drop (value_size current * length nodes.now) out.old }
{
    let start = level_start(plan.n, level);
    for (i, &node) in nodes.iter().enumerate() {
        put_value(out, i, plan.value(cells[start + index_of(node)]));
    }
}
