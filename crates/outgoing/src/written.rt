// The frame that a board outside F writes.
ghost use Rattle.std.specs.Prelude.{◌≡◌, ◌≤◌, length, replicate};
ghost use Rattle.codec.specs.Codec.{current, value_size};
ghost use Rattle.protocol.specs.Limits.{frame_room};
ghost use Rattle.protocol.specs.Rounds.{board_with};
ghost use Rattle.stage.specs.Stage.{board_on};
ghost use Rattle.outgoing.specs.Outgoing.{dealt_frame, frame_from, healthy_frame, Written, Sends};

use codec::value::Value;
use dealing::dealing::deal;
use levels::levels::cell_count;
use protocol::records::Record;
use sending::sending::send;
use sets::boards::member;
use sheet::head::Head;

// The dealer's frame; its length.
fn dealer_frame(head: Head, frame: &mut [u8]) -> usize
    requires { value_size current ≤ length frame.old }
    ensures { Written result (value_size current) frame.new (dealt_frame head) }
{
    match deal(head.plan, head.word) {
        Ok(bytes) => {
            frame[..2].copy_from_slice(&bytes);
            2
        }
        Err(_) => 0,
    }
}

// The frame of board q, which is outside F; its length.
fn frame_of(head: Head, q: u8, r: Record, cells: &[Value], frame: &mut [u8]) -> usize
    requires { frame.old ≡ replicate (frame_room current) 0 }
    ensures { Written result (frame_room current) frame.new (frame_from head q (board_with r cells.now)) }
{
    if q == head.plan.dealer {
        return dealer_frame(head, frame);
    }
    send(r, cells, frame).unwrap_or(0)
}

// The frame of board q, by its record and its part of the cells; its length, 0 if q is faulty.
pub fn sender_frame(
    head: Head,
    q: u8,
    records: [Record; 7],
    cells: &[Value],
    frame: &mut [u8],
) -> usize
    requires { Sends head q cells.now frame.old }
    ensures { Written result (frame_room current) frame.new (healthy_frame head q (board_on head.plan.n (record { recs = records; cells = cells.now }) q)) }
{
    if member(head.faulty, q) {
        return 0;
    }
    let size = cell_count(head.plan.n);
    let place = usize::from(q);
    let at = place * size;
    frame_of(head, q, records[place], &cells[at..at + size], frame)
}
