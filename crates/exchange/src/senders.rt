// All boards hear all others.
ghost use Rattle.std.specs.Prelude.{◌≡◌};
ghost use Rattle.finding.specs.Frames.{frames_in};
ghost use Rattle.exchange.specs.Exchange.{Ready, ReadyFor, hear_sender, hear_senders};

use codec::value::Value;
use hearing::hearing::hear_from;
use outgoing::written::sender_frame;
use protocol::limits::FRAME;
use protocol::records::Record;
use sheet::head::Head;
use stage::acting::on_stage;

// Every board hears board q.
fn hear_sender(
    head: Head,
    frames: &[u8],
    q: u8,
    records: [Record; 7],
    cells: &mut [Value],
) -> [Record; 7]
    requires { ReadyFor head cells.old frames.now q }
    ensures { record { recs = result; cells = cells.new } ≡ hear_sender head (frames_in frames.now) q (record { recs = records; cells = cells.old }) }
{
    let mut frame = [0u8; FRAME];
    let own = sender_frame(head, q, records, cells, &mut frame);
    let own = &frame[..own];
    on_stage(
        head,
        |_, r, part: &mut [Value]| {
            let mut heard = r;
            hear_from(head, frames, q, own, &mut heard, part);
            heard
        },
        records,
        cells,
    )
}

// Every board hears all others.
pub fn hear_all(head: Head, frames: &[u8], records: [Record; 7], cells: &mut [Value]) -> [Record; 7]
    requires { Ready head cells.old frames.now }
    ensures { record { recs = result; cells = cells.new } ≡ hear_senders head (frames_in frames.now) head.plan.n (record { recs = records; cells = cells.old }) }
{
    let mut all = records;
    for q in 0..head.plan.n {
        // The check does not cover an array that a call gives to a variable of a loop at once.
        let next = hear_sender(head, frames, q, all, cells);
        all = next;
    }
    all
}
