// Taking a frame of any round.
ghost use Rattle.codec.specs.Codec.{current, decode};
ghost use Rattle.refusals.specs.Outcome.{verdict};
ghost use Rattle.protocol.specs.Nodes.{sent, due};
ghost use Rattle.frames.specs.Nodes.{InRound};
ghost use Rattle.first_round.specs.Takes.{Takes};

use crate::later::take_later;
use codec::value::Value;
use first_round::word::take_word;
use frames::seat::Seat;
use plan::plan::Plan;
use protocol::records::Slot;
use refusals::refusal::Refusal;
use schedule::rounds::{Round, Run};
use tables::asking::TabledPlan;

// 14, 15, then the frame is stored.
pub fn take(
    plan: Plan,
    board: u8,
    run: Run,
    round: Round,
    list: [Slot; 7],
    marks: u8,
    q: u8,
    frame: &[u8],
    cells: &mut [Value],
) -> Result<(), Refusal>
    requires { InRound plan board round cells.old }
    ensures { Takes plan q list marks (due plan q board round) (sent plan q board round) (decode current frame.now) cells.old (verdict result) cells.new }
{
    if plan.n <= q {
        return Err(Refusal::NotDue);
    }
    if round.0 == 1 {
        return take_word(plan, list, marks, q, frame, cells);
    }
    let seat = Seat::new(TabledPlan::new(plan), board, run, round);
    take_later(&seat, list, marks, q, frame, cells)
}
