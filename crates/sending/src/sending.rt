// Writing a frame.
ghost use Rattle.std.specs.Prelude.{◌≡◌};
ghost use Rattle.protocol.specs.Answers.{sent_says};
ghost use Rattle.protocol.specs.Calls.{sending};
ghost use Rattle.frames.specs.Nodes.{InRound};
ghost use Rattle.sending.specs.Writing.{Writes};
ghost use Rattle.protocol.specs.Rounds.{board_with};

use crate::later::write_later;
use codec::value::Value;
use frames::seat::Seat;
use judging::judging::judge_open;
use protocol::records::Record;
use refusals::refusal::Refusal;
use tables::asking::TabledPlan;

// 16, 17, then the frame is written. In round 1 only the dealer sends.
fn write(r: Record, cells: &[Value], out: &mut [u8]) -> Result<usize, Refusal>
    requires { InRound r.plan r.board r.round cells.now }
    ensures { Writes r.plan r.board r.round cells.now out.old (sent_says result) out.new }
{
    if r.round.0 == 1 {
        return Err(Refusal::NothingToSend);
    }
    let seat = Seat::new(TabledPlan::new(r.plan), r.board, r.run, r.round);
    write_later(&seat, cells, out)
}

// Writing a frame.
pub fn send(r: Record, cells: &[Value], out: &mut [u8]) -> Result<usize, Refusal>
    ensures { record { answer = sent_says result; out = out.new } ≡ sending (board_with r cells.now) out.old }
{
    judge_open(r, cells)?;
    write(r, cells, out)
}
