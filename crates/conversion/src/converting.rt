// Closing round R converts: every node is resolved, and rule C runs over what the nodes resolved to.
ghost use Rattle.resolving.specs.Promises.{Convertible};
ghost use Rattle.conversion.specs.Promises.{Converts};

use codec::value::Value;
use protocol::records::Slot;
use resolving::resolving::resolve_root;
use rule_c::rule_c::detect_levels;
use schedule::rounds::{Round, Run, rounds};
use tables::asking::TabledPlan;

// The resolved root, and the list.
#[derive(Clone, Copy, Debug, PartialEq, Eq)]
pub struct Converted {
    pub root: Value,
    pub list: [Slot; 7],
}

// The cells are left as resolving in place leaves them; the caller blanks all but the root.
pub fn convert_cells(
    tabled: &TabledPlan,
    board: u8,
    run: Run,
    round: Round,
    list: [Slot; 7],
    cells: &mut [Value],
) -> Converted
    requires { Convertible tabled.now.plan tabled.now.holders board cells.old }
    ensures { Converts tabled.now.plan board run round list result.root result.list cells.old cells.new }
{
    let Round(top) = rounds(tabled.plan);
    let root = resolve_root(tabled, board, top, cells);
    let found = detect_levels(tabled, board, run, round, top, list, cells);
    Converted { root, list: found }
}
