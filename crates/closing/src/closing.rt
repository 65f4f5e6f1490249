// Closing a round.
ghost use Rattle.std.specs.Prelude.{◌≡◌};
ghost use Rattle.refusals.specs.Outcome.{taken};
ghost use Rattle.protocol.specs.Answers.{closed_record, closed_says, open_says};
ghost use Rattle.protocol.specs.Rounds.{board_with, close};
ghost use Rattle.protocol.specs.Calls.{closing, closed_values};
ghost use Rattle.closing.specs.Closable.{Closable};

use advancing::advancing::{convert_round, next_round};
use codec::value::Value;
use frames::seat::Seat;
use gathering::gathering::gather_round;
use judging::judging::judge_open;
use protocol::answers::{Closed, Closing};
use protocol::records::Record;
use refusals::refusal::Refusal;
use schedule::rounds::rounds;
use tables::asking::TabledPlan;

// A round is closed: the record.
fn close_round(r: Record, cells: &mut [Value]) -> Record
    requires { Closable r cells.old }
    ensures { board_with result cells.new ≡ close (board_with r cells.old) }
{
    let seat = Seat::new(TabledPlan::new(r.plan), r.board, r.run, r.round);
    let found = gather_round(&seat, r.marks, r.list, cells);
    if r.round.0 < rounds(r.plan).0 {
        return next_round(r, found);
    }
    convert_round(r, &seat.tabled, found, cells)
}

// What a closing that is taken opens.
#[tactic(auto, unfolding(protocol::specs::Answers::open_says, protocol::specs::Calls::closed_values))]
fn opened(r: Record) -> Closing
    ensures { open_says result ≡ taken (closed_values r) }
{
    if r.decided {
        return Closing::Decided;
    }
    Closing::Next(r.run, r.round)
}

// Closing a round.
pub fn close(r: Record, cells: &mut [Value]) -> Result<Closed, Refusal>
    ensures { record { answer = closed_says result; board = board_with (closed_record r result) cells.new } ≡ closing (board_with r cells.old) }
{
    judge_open(r, cells)?;
    let rec = close_round(r, cells);
    Ok(Closed {
        closing: opened(rec),
        rec,
    })
}
