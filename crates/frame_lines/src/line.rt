// A frame line, judged.
ghost use Rattle.std.specs.Prelude.{◌≡◌};
ghost use Rattle.refusals.specs.Outcome.{verdict};
ghost use Rattle.plan.specs.Calls.{judged};
ghost use Rattle.frame_lines.specs.FrameLines.{expected, good_line, judge_line};

use finding::keys::key_of;
use frames::seat::Seat;
use frames::writing::is_due;
use hexadecimal::reading::{byte_at, is_text};
use plan::plan::Plan;
use positions::positions::has_round;
use refusals::refusal::Refusal;
use schedule::rounds::{Round, Run};
use sets::boards::member;
use tables::asking::TabledPlan;

// Is a frame due from the sender to the receiver, in a round that the plan has?
fn is_expected(plan: Plan, run: Run, round: Round, sender: u8, receiver: u8) -> bool
    requires { (judged plan).number ≡ 0 }
    ensures { result ≡ expected plan run round sender receiver }
{
    if !has_round(plan, run, round) || plan.n <= receiver || receiver == plan.dealer {
        return false;
    }
    let seat = Seat::new(TabledPlan::new(plan), receiver, run, round);
    is_due(&seat, sender)
}

// A frame line: 24.
fn is_good_frame(plan: Plan, faulty: u8, least: usize, line: &[u8]) -> bool
    requires { (judged plan).number ≡ 0 }
    ensures { result ≡ good_line plan faulty least line.now }
{
    let run = Run(byte_at(line, 0));
    let round = Round(byte_at(line, 1));
    let sender = byte_at(line, 2);
    let receiver = byte_at(line, 3);
    if line.len() < 8
        || key_of(line) < least
        || !member(faulty, sender)
        || member(faulty, receiver)
    {
        return false;
    }
    is_expected(plan, run, round, sender, receiver)
}

// A line, and whether a newline ends it: 21, then 24.
#[tactic(auto, unfolding(refusals::specs::Outcome::verdict, refusals::specs::Outcome::refusal, crate::specs::FrameLines::judge_line))]
pub fn judge_line(
    line: &[u8],
    whole: bool,
    plan: Plan,
    faulty: u8,
    least: usize,
) -> Result<(), Refusal>
    requires { (judged plan).number ≡ 0 }
    ensures { verdict result ≡ judge_line plan faulty least (record { text = line.now; ended = whole }) }
{
    if !whole || !is_text(line) {
        return Err(Refusal::BadText);
    }
    if !is_good_frame(plan, faulty, least, line) {
        return Err(Refusal::BadFrame);
    }
    Ok(())
}
