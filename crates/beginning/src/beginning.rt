// Beginning a board.
ghost use Rattle.std.specs.Prelude.{◌≡◌};
ghost use Rattle.codec.specs.Codec.{current};
ghost use Rattle.refusals.specs.Outcome.{verdict};
ghost use Rattle.protocol.specs.Answers.{begun_record, begun_says};
ghost use Rattle.protocol.specs.Rounds.{board_with};
ghost use Rattle.protocol.specs.Calls.{fresh_record, void_record, judge_beginning, beginning};

use clearing::cells::clear;
use codec::value::Value;
use judging::judging::{judge_board, judge_cells};
use listing::listing::no_entries;
use plan::plan::Plan;
use protocol::records::Record;
use refusals::refusal::Refusal;
use schedule::rounds::{Round, Run};

// The record of a board that begins.
#[tactic(auto, unfolding(protocol::specs::Calls::fresh_record))]
fn fresh(plan: Plan, board: u8) -> Record
    ensures { result ≡ fresh_record plan board }
{
    Record {
        plan,
        board,
        run: Run(1),
        round: Round(1),
        list: no_entries(),
        marks: 0,
        decided: false,
        decision: 0,
    }
}

// The record of a board that has not begun; the definitions have it beside a refused beginning.
#[tactic(auto, unfolding(protocol::specs::Calls::void_record))]
pub fn void() -> Record
    ensures { result ≡ void_record }
{
    Record {
        plan: Plan::void(),
        board: 0,
        run: Run(0),
        round: Round(0),
        list: no_entries(),
        marks: 0,
        decided: false,
        decision: 0,
    }
}

// 1 to 7, 26, 8, then 9, 10, 11.
fn judge_begin(plan: Plan, board: u8, cells: &[Value]) -> Result<(), Refusal>
    ensures { verdict result ≡ judge_beginning plan board cells.now }
{
    plan.judge()?;
    judge_board(plan, board)?;
    judge_cells(plan, cells)
}

// Beginning a board.
pub fn begin(plan: Plan, board: u8, cells: &mut [Value]) -> Result<Record, Refusal>
    ensures { record { answer = begun_says result; board = board_with (begun_record result) cells.new } ≡ beginning current plan board cells.old }
{
    judge_begin(plan, board, cells)?;
    clear(plan, cells);
    Ok(fresh(plan, board))
}
