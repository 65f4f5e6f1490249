// The leaves: which nodes they are, and what becomes of their cells.
ghost use Rattle.std.specs.Prelude.{◌≡◌, not, ◌&&◌, ◌^◌, ◌<◌, ltb, length};
ghost use Rattle.internal.specs.Tests.{is_internal};
ghost use Rattle.leaves.specs.Leaves.{Leaves};

use codec::value::Value;
use internal::internal::is_internal;
use plan::plan::Plan;
use tables::asking::TabledPlan;

// Is a node with these boards a leaf to a board, with `left` levels below it?
pub fn is_leaf(tabled: &TabledPlan, board: u8, boards: u8, left: u8) -> bool
    requires { boards < 2 ^ tabled.now.plan.n }
    ensures { result ≡ not (ltb 0 left && is_internal tabled.now.plan board boards) }
{
    left == 0 || !is_internal(tabled, board, boards)
}

// A leaf resolves to its cell, which becomes a value.
pub fn settle_leaf(plan: Plan, at: usize, cells: &mut [Value]) -> Value
    requires { at < length cells.old }
    ensures { Leaves plan at result cells.old cells.new }
{
    let kept = plan.value(cells[at]);
    cells[at] = kept;
    kept
}
