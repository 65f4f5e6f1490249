// Later rounds: a frame is the nodes that it carries, found by one walk of the level.
ghost use Rattle.std.specs.Prelude.{◌≤◌, ◌<◌, length};
ghost use Rattle.codec.specs.Codec.{current, decode};
ghost use Rattle.refusals.specs.Outcome.{verdict};
ghost use Rattle.protocol.specs.Nodes.{sent, due};
ghost use Rattle.tree.specs.Places.{cell_count};
ghost use Rattle.first_round.specs.Takes.{Takes};

use codec::value::Value;
use frames::seat::Seat;
use protocol::limits::VALUES;
use protocol::records::Slot;
use refusals::refusal::Refusal;
use sets::boards::member;
use storing::storing::store_frame;
use walk::nodes::carried_nodes;

// No node is 14, then 15, then the frame is stored.
pub fn take_later(
    seat: &Seat,
    list: [Slot; 7],
    marks: u8,
    q: u8,
    frame: &[u8],
    cells: &mut [Value],
) -> Result<(), Refusal>
    requires later { 2 ≤ seat.now.round.0 }
    requires sender { q < seat.now.tabled.plan.n }
    requires enough { cell_count seat.now.tabled.plan.n ≤ length cells.old }
    ensures { Takes seat.now.tabled.plan q list marks (due seat.now.tabled.plan q seat.now.board seat.now.round) (sent seat.now.tabled.plan q seat.now.board seat.now.round) (decode current frame.now) cells.old (verdict result) cells.new }
{
    if q == seat.board {
        return Err(Refusal::NotDue);
    }
    let plan = seat.tabled.plan;
    let level = seat.round.0 - 1;
    let mut nodes = [0u32; VALUES];
    let count = carried_nodes(&seat.tabled, seat.board, q, level, &mut nodes);
    if count == 0 {
        return Err(Refusal::NotDue);
    }
    if member(marks, q) {
        return Err(Refusal::AlreadyTaken);
    }
    store_frame(plan, level, q, list, &nodes[0..count], frame, cells);
    Ok(())
}
