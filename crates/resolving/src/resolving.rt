// Resolving in place: a node leaves what it resolves to in its own cell, children before their node.
ghost use Rattle.resolving.specs.Promises.{Resolvable, WholeTree, Settles, Roots, node};

use codec::value::Value;
use leaves::leaf::{is_leaf, settle_leaf};
use levels::levels::level_size;
use plan::plan::Plan;
use sets::boards::member;
use tables::asking::TabledPlan;
use voting::voting::vote;

// Resolves a node, with `left` levels below it; the mark for none.
fn resolve_node(
    tabled: &TabledPlan,
    board: u8,
    level: u8,
    start: usize,
    index: usize,
    boards: u8,
    left: u8,
    cells: &mut [Value],
) -> Value
    requires { Resolvable tabled.now.plan tabled.now.holders board level start index boards left cells.old }
    ensures { Settles tabled.now.plan board left (node tabled.now.plan level index) result cells.old cells.new }
{
    let at = start + index;
    if is_leaf(tabled, board, boards, left) {
        return settle_leaf(tabled.plan, at, cells);
    }
    let next = start + level_size(tabled.plan.n, level);
    let mut values = [Plan::BLANK; 8];
    let mut child = index * (tabled.plan.n - level) as usize;
    for c in 0..tabled.plan.n {
        if !member(boards, c) {
            values[c as usize] = resolve_node(
                tabled,
                board,
                level + 1,
                next,
                child,
                boards | (1 << c),
                left - 1,
                cells,
            );
            child += 1;
        }
    }
    let v = vote(tabled, boards, values);
    cells[at] = v;
    v
}

// Resolves the root, where `top` is the last round: a value.
pub fn resolve_root(tabled: &TabledPlan, board: u8, top: u8, cells: &mut [Value]) -> Value
    requires { WholeTree tabled.now.plan tabled.now.holders board top cells.old }
    ensures { Roots tabled.now.plan board result cells.old cells.new }
{
    let v = resolve_node(
        tabled,
        board,
        1,
        0,
        0,
        1 << tabled.plan.dealer,
        top - 1,
        cells,
    );
    if v == Plan::BLANK {
        tabled.plan.default()
    } else {
        v
    }
}
