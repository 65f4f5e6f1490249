// Later rounds: a frame is the nodes that it carries, found by one walk of the level.
ghost use Rattle.std.specs.Prelude.{◌≡◌, ◌≤◌, ◌||◌, eqb, ltb, length};
ghost use Rattle.protocol.specs.Answers.{sent_says};
ghost use Rattle.tree.specs.Places.{cell_count};
ghost use Rattle.sending.specs.Writing.{Writes};

use codec::value::{VALUE_SIZE, Value};
use frames::seat::Seat;
use frames::writing::write_at;
use protocol::limits::VALUES;
use refusals::refusal::Refusal;
use walk::nodes::carried_nodes;

// Is there nothing to send? Another board that keeps cells takes three boards, with this one and the dealer.
fn is_idle(n: u8, count: usize) -> bool
    ensures { result ≡ (eqb count 0 || ltb n 3) }
{
    count == 0 || n < 3
}

// 16, 17, then the frame is written.
pub fn write_later(seat: &Seat, cells: &[Value], out: &mut [u8]) -> Result<usize, Refusal>
    requires later { 2 ≤ seat.now.round.0 }
    requires enough { cell_count seat.now.tabled.plan.n ≤ length cells.now }
    ensures { Writes seat.now.tabled.plan seat.now.board seat.now.round cells.now out.old (sent_says result) out.new }
{
    let plan = seat.tabled.plan;
    let level = seat.round.0 - 1;
    let mut nodes = [0u32; VALUES];
    let count = carried_nodes(&seat.tabled, seat.board, seat.board, level, &mut nodes);
    let length = VALUE_SIZE * count;
    if is_idle(plan.n, count) {
        return Err(Refusal::NothingToSend);
    }
    if out.len() < length {
        return Err(Refusal::ShortOutput);
    }
    write_at(plan, level, &nodes[0..count], cells, out);
    Ok(length)
}
