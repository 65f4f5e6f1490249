// Handing in a frame.
ghost use Rattle.std.specs.Prelude.{◌≡◌};
ghost use Rattle.refusals.specs.Outcome.{verdict};
ghost use Rattle.protocol.specs.Rounds.{board_with};
ghost use Rattle.protocol.specs.Calls.{receiving};

use codec::value::Value;
use judging::judging::judge_open;
use protocol::records::Record;
use refusals::refusal::Refusal;
use taking::rounds::take;

// Handing in: a frame that is taken marks its sender.
pub fn receive(r: &mut Record, cells: &mut [Value], sender: u8, frame: &[u8]) -> Result<(), Refusal>
    ensures { record { answer = verdict result; board = board_with r.new cells.new } ≡ receiving (board_with r.old cells.old) sender frame.now }
{
    judge_open(*r, cells)?;
    take(
        r.plan, r.board, r.run, r.round, r.list, r.marks, sender, frame, cells,
    )?;
    r.marks |= 1 << sender;
    Ok(())
}
