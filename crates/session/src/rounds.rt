// All rounds of all runs, for all boards of a session.
ghost use Rattle.std.specs.Prelude.{◌≡◌, ◌<◌, replicate};
ghost use Rattle.schedule.specs.Schedule.{steps};
ghost use Rattle.protocol.specs.Rounds.{board_with};
ghost use Rattle.protocol.specs.Calls.{void_record};
ghost use Rattle.finding.specs.Frames.{frames_in, skip_frames};
ghost use Rattle.exchange.specs.Exchange.{Ready};
ghost use Rattle.session.specs.Steps.{begins, closes, play_step, step_key, play_steps};

use beginning::beginning::{begin, void};
use closing::closing::close;
use codec::value::Value;
use exchange::senders::hear_all;
use finding::finding::skip_to;
use plan::plan::Plan;
use protocol::records::Record;
use schedule::rounds::{Round, Run, rounds, steps};
use sheet::head::Head;
use stage::acting::on_stage;

// Records of boards that have not begun.
fn void_records() -> [Record; 7]
    ensures { result ≡ replicate 7 void_record }
{
    [void(); 7]
}

// Board i begins: its record, the void one where that is refused.
fn begun(plan: Plan, i: u8, cells: &mut [Value]) -> Record
    ensures { board_with result cells.new ≡ begins plan i (board_with void_record cells.old) }
{
    begin(plan, i, cells).unwrap_or(void())
}

// A board closes its round: its record, as it came where that is refused.
fn closed(r: Record, cells: &mut [Value]) -> Record
    ensures { board_with result cells.new ≡ closes 0 (board_with r cells.old) }
{
    match close(r, cells) {
        Ok(closed) => closed.rec,
        Err(_) => r,
    }
}

// One round of all boards: they hear all others and close.
fn play_round(head: Head, frames: &[u8], records: [Record; 7], cells: &mut [Value]) -> [Record; 7]
    requires { Ready head cells.old frames.now }
    ensures { record { recs = result; cells = cells.new } ≡ play_step head (frames_in frames.now) (record { recs = records; cells = cells.old }) }
{
    let heard = hear_all(head, frames, records, cells);
    on_stage(
        head,
        |_, r, part: &mut [Value]| closed(r, part),
        heard,
        cells,
    )
}

// The frame lines from the first on that is not before step j; steps are the rounds over all runs, from 0.
fn skip_to_step(frames: &[u8], plan: Plan, j: usize) -> &[u8]
    requires { j < steps plan }
    ensures { frames_in result.now ≡ skip_frames (step_key plan j) (frames_in frames.now) }
{
    if j == 0 {
        return skip_to(frames, Run(1), Round(1));
    }
    let last = rounds(plan);
    let later = usize::from(last.0) - 1;
    let run = Run(((j - 1) / later + 1) as u8);
    let round = Round(((j - 1) % later + 2) as u8);
    skip_to(frames, run, round)
}

// All rounds of all runs; the records at the end. Frames are looked for from the round's first line on.
pub fn play_rounds(head: Head, frames: &[u8], cells: &mut [Value]) -> [Record; 7]
    requires { Ready head cells.old frames.now }
    ensures { record { recs = result; cells = cells.new } ≡ play_steps head (frames_in frames.now) (steps head.plan) (record { recs = replicate 7 void_record; cells = cells.old }) }
{
    let plan = head.plan;
    let mut all = on_stage(
        head,
        |i, _, part: &mut [Value]| begun(plan, i, part),
        void_records(),
        cells,
    );
    let mut rest = frames;
    for j in 0..steps(plan) {
        rest = skip_to_step(rest, plan, j);
        // The check does not cover an array that a call gives to a variable of a loop at once.
        let next = play_round(head, rest, all, cells);
        all = next;
    }
    all
}
