// Round 1: the dealer's frame.
ghost use Rattle.std.specs.Prelude.{◌≡◌, [], ◌∷◌, eqb};
ghost use Rattle.codec.specs.Codec.{current, decode};
ghost use Rattle.refusals.specs.Outcome.{verdict};
ghost use Rattle.protocol.specs.Rounds.{counted};
ghost use Rattle.frames.specs.Nodes.{First, entry};
ghost use Rattle.first_round.specs.Takes.{Takes};

use codec::value::{Value, value_at, value_count};
use listing::listing::as_set;
use plan::plan::Plan;
use protocol::records::Slot;
use refusals::refusal::Refusal;
use sets::boards::member;

// The dealer's value; the default for a frame of another length, or of a listed dealer.
fn word_of(plan: Plan, list: [Slot; 7], q: u8, frame: &[u8]) -> Value
    ensures { result ≡ entry plan (counted list q ([] ∷ []) (decode current frame.now)) 0 }
{
    if value_count(frame) == 1 && !member(as_set(list), q) {
        return plan.value(value_at(frame, 0));
    }
    plan.default()
}

// Round 1, the dealer's frame: 14, 15, then it is stored at the root.
pub fn take_word(
    plan: Plan,
    list: [Slot; 7],
    marks: u8,
    q: u8,
    frame: &[u8],
    cells: &mut [Value],
) -> Result<(), Refusal>
    requires { First plan cells.old }
    ensures { Takes plan q list marks (eqb q plan.dealer) ([] ∷ []) (decode current frame.now) cells.old (verdict result) cells.new }
{
    if q != plan.dealer {
        return Err(Refusal::NotDue);
    }
    if member(marks, q) {
        return Err(Refusal::AlreadyTaken);
    }
    cells[0] = word_of(plan, list, q, frame);
    Ok(())
}
