// Closing a round over a lent record.
ghost use Rattle.std.specs.Prelude.{◌≡◌};
ghost use Rattle.protocol.specs.Answers.{closed_record, closed_says, closing_says};
ghost use Rattle.protocol.specs.Calls.{closing};
ghost use Rattle.protocol.specs.Rounds.{board_with};
ghost use Rattle.flight.specs.Lent.{lent_closing};

use closing::closing::close;
use codec::value::Value;
use protocol::answers::{Closed, Closing};
use protocol::records::Record;
use refusals::refusal::Refusal;

// Closing a round over a lent record: that same record is updated.
#[tactic(auto, unfolding(crate::specs::Lent::lent_closing, protocol::specs::Answers::closing_says, protocol::specs::Answers::closed_says, protocol::specs::Answers::closed_record))]
pub fn close_lent(r: &mut Record, cells: &mut [Value]) -> Result<Closing, Refusal>
    ensures { record { answer = closing_says result; rec = r.new; cells = cells.new } ≡ lent_closing r.old cells.old }
{
    let closed = close(*r, cells)?;
    *r = closed.rec;
    Ok(closed.closing)
}

// Closing a round by value, over `close_lent`: shows how a board lends its record.
pub fn close_own(r: Record, cells: &mut [Value]) -> Result<Closed, Refusal>
    ensures { record { answer = closed_says result; board = board_with (closed_record r result) cells.new } ≡ closing (board_with r cells.old) }
{
    let mut rec = r;
    let closing = close_lent(&mut rec, cells)?;
    Ok(Closed { closing, rec })
}
