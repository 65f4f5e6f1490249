// What the calls judge before they do anything.
ghost use Rattle.std.specs.Prelude.{◌≡◌, ◌&&◌, cond, [], ◌≤◌, ltb, length};
ghost use Rattle.refusals.specs.Outcome.{taken, refused, verdict};
ghost use Rattle.tree.specs.Places.{count_within};
ghost use Rattle.protocol.specs.Calls.{is_taken, judge_board, good_marks, good_decision, good_record, judge_record, judge_decided, judge_open};
ghost use Rattle.protocol.specs.Rounds.{board_with};
ghost use Rattle.entries.specs.Entries.{are_good_entries};

use codec::value::Value;
use entries::entries::are_good_entries;
use levels::levels::cell_count;
use listing::listing::as_set;
use plan::plan::Plan;
use positions::positions::is_round;
use protocol::records::Record;
use refusals::refusal::Refusal;
use schedule::rounds::{Round, Run, rounds, runs};
use sets::boards::{all_boards, within};

// The board's number: 9 and 10.
#[tactic(auto, unfolding(refusals::specs::Outcome::verdict, refusals::specs::Outcome::refusal, refusals::specs::Outcome::and_then, protocol::specs::Calls::judge_board, protocol::specs::Calls::judge_number, protocol::specs::Calls::judge_other))]
pub fn judge_board(plan: Plan, board: u8) -> Result<(), Refusal>
    ensures { verdict result ≡ judge_board plan board }
{
    if plan.n <= board {
        return Err(Refusal::BoardNumber);
    }
    if board == plan.dealer {
        return Err(Refusal::BoardIsDealer);
    }
    Ok(())
}

// The board's cells: 11.
#[tactic(auto, unfolding(refusals::specs::Outcome::verdict, refusals::specs::Outcome::refusal))]
pub fn judge_cells(plan: Plan, cells: &[Value]) -> Result<(), Refusal>
    ensures { verdict result ≡ cond (ltb (length cells.now) (count_within plan.n)) (refused 11) (taken []) }
{
    if cells.len() < cell_count(plan.n) {
        return Err(Refusal::ShortCells);
    }
    Ok(())
}

// The list, the marks, the entries and the decision of a record, where the last run and the last round are these.
#[tactic(auto, using(crate::proofs::Judged::below), unfolding(protocol::specs::Calls::good_marks, protocol::specs::Calls::good_decision))]
fn has_good_fields(r: Record, last: Run, end: Round) -> bool
    requires { r.plan.n ≤ 8 }
    ensures { result ≡ (good_marks r && (are_good_entries last end r.list && good_decision r)) }
{
    let all = all_boards(r.plan.n);
    within(as_set(r.list), all)
        && within(r.marks, all)
        && are_good_entries(last, end, r.list)
        && (!r.decided || r.decision < r.plan.span)
}

// Is it a record that 12 does not refuse?
#[tactic(auto, using(crate::proofs::Judged::good_by), unfolding(protocol::specs::Calls::good_record, protocol::specs::Calls::good_plan, protocol::specs::Calls::good_position))]
fn is_good(r: Record) -> bool
    ensures { result ≡ good_record r }
{
    r.plan.judge().is_ok()
        && judge_board(r.plan, r.board).is_ok()
        && {
            // Only of a plan that passes: they go over all of its sets.
            let last = runs(r.plan);
            let end = rounds(r.plan);
            is_round(last, end, r.run, r.round) && has_good_fields(r, last, end)
        }
}

// The record: 12.
#[tactic(auto, unfolding(refusals::specs::Outcome::verdict, refusals::specs::Outcome::refusal, protocol::specs::Calls::judge_record))]
pub fn judge_record(r: Record) -> Result<(), Refusal>
    ensures { verdict result ≡ judge_record r }
{
    if is_good(r) {
        return Ok(());
    }
    Err(Refusal::BadRecord)
}

// Has the board decided? 13.
#[tactic(auto, unfolding(refusals::specs::Outcome::verdict, refusals::specs::Outcome::refusal))]
fn judge_decided(decided: bool) -> Result<(), Refusal>
    ensures { verdict result ≡ judge_decided decided }
{
    if decided {
        return Err(Refusal::Decided);
    }
    Ok(())
}

// 12, 11, 13.
pub fn judge_open(r: Record, cells: &[Value]) -> Result<(), Refusal>
    ensures { verdict result ≡ judge_open (board_with r cells.now) }
{
    judge_record(r)?;
    judge_cells(r.plan, cells)?;
    judge_decided(r.decided)
}
