// What follows a round: the next round, the next run, or the decision.
ghost use Rattle.std.specs.Prelude.{◌≡◌, ◌≤◌, true, length};
ghost use Rattle.protocol.specs.Records.{advanced, run_ended};
ghost use Rattle.protocol.specs.Rounds.{board_with, convert};
ghost use Rattle.protocol.specs.Calls.{good_record};
ghost use Rattle.advancing.specs.Ends.{GoesOn};
ghost use Rattle.tree.specs.Places.{cell_count};

use clearing::cells::keep_root;
use codec::value::Value;
use conversion::converting::{Converted, convert_cells};
use protocol::records::{Record, Slot};
use schedule::rounds::{Round, Run, runs};
use tables::asking::TabledPlan;

// The next round of the same run.
pub fn next_round(r: Record, list: [Slot; 7]) -> Record
    requires { GoesOn r }
    ensures { result ≡ advanced r list }
{
    Record {
        round: Round(r.round.0 + 1),
        list,
        marks: 0,
        decided: false,
        decision: 0,
        ..r
    }
}

// The next run, or the decision.
fn next_run(r: Record, list: [Slot; 7], root: Value) -> Record
    requires { good_record r ≡ true }
    ensures { result ≡ run_ended r list root }
{
    let last = runs(r.plan);
    if r.run == last {
        return Record {
            list,
            marks: 0,
            decided: true,
            decision: root,
            ..r
        };
    }
    Record {
        run: Run(r.run.0 + 1),
        round: Round(2),
        list,
        marks: 0,
        decided: false,
        decision: 0,
        ..r
    }
}

// Closing the last round of a run: the root, rule C, the cells, and the record.
pub fn convert_round(r: Record, tabled: &TabledPlan, list: [Slot; 7], cells: &mut [Value]) -> Record
    requires good { good_record r ≡ true }
    requires own { tabled.now.plan ≡ r.plan }
    requires enough { cell_count r.plan.n ≤ length cells.old }
    ensures { board_with result cells.new ≡ convert (board_with r cells.old) (record { list = list; cells = cells.old }) }
{
    let Converted { root, list: found } = convert_cells(
        tabled, r.board, r.run, r.round, list, cells,
    );
    keep_root(r.plan, root, cells);
    next_run(r, found, root)
}
