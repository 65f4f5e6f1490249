// A board hears another.
ghost use Rattle.std.specs.Prelude.{◌≡◌};
ghost use Rattle.protocol.specs.Rounds.{board_with};
ghost use Rattle.protocol.specs.Session.{hand_in};
ghost use Rattle.finding.specs.Frames.{frames_in, Rising};
ghost use Rattle.hearing.specs.Hearing.{in_sheet, hear_from};

use codec::value::Value;
use fetching::fetching::read_frame;
use protocol::limits::FRAME;
use protocol::records::Record;
use receiving::receiving::receive;
use sets::boards::member;
use sheet::head::Head;

// A board hears what the sheet has for it from the faulty board q.
fn hear_faulty(frames: &[u8], q: u8, r: &mut Record, cells: &mut [Value])
    requires { Rising frames.now }
    ensures { board_with r.new cells.new ≡ hand_in q (in_sheet (frames_in frames.now) q r.old) (board_with r.old cells.old) }
{
    let mut frame = [0u8; FRAME];
    if let Some(k) = read_frame(frames, r.run, r.round, q, r.board, &mut frame) {
        let _ = receive(r, cells, q, &frame[..k]);
    }
}

// A board hears board q: what the sheet has for it if q is faulty, else q's own frame.
pub fn hear_from(head: Head, frames: &[u8], q: u8, own: &[u8], r: &mut Record, cells: &mut [Value])
    requires { Rising frames.now }
    ensures { board_with r.new cells.new ≡ hear_from head (frames_in frames.now) q own.now 0 (board_with r.old cells.old) }
{
    if member(head.faulty, q) {
        hear_faulty(frames, q, r, cells);
    } else {
        let _ = receive(r, cells, q, own);
    }
}
