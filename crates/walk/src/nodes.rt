// The walk: the nodes of a level that are held and without some boards, in cell order.
ghost use Rattle.std.specs.Prelude.{◌≡◌};
ghost use Rattle.protocol.specs.Nodes.{inner, carried};
ghost use Rattle.walk.specs.Walk.{single, walked};
ghost use Rattle.internal.specs.Tests.{is_open};
ghost use Rattle.walk.specs.Listing.{Walking, Written, Walkable, Lists};

use internal::internal::{barred_to, is_open};
use internal::node::node_of;
use sets::boards::member;
use tables::asking::TabledPlan;

// The set of board q alone; empty if a byte has no such board.
#[tactic(auto, using(std::proofs::lemmas::Nat::one_shl), unfolding(crate::specs::Walk::single))]
fn set_of(q: u8) -> u8
    ensures { result ≡ single q }
{
    if q < 8 { 1 << q } else { 0 }
}

// Writes the nodes `left` levels below a node from place `used` on; the place after them.
// A node with a board of `without`, or that is not held, is left out with all below it. A node has `spare` + `left` children.
fn walk(
    holders: &[u8],
    n: u8,
    spare: u8,
    without: u8,
    index: u32,
    last: u8,
    boards: u8,
    left: u8,
    used: usize,
    nodes: &mut [u32],
) -> usize
    requires { Walking n spare index boards left holders.now used (walked (is_open holders.now without) n spare left index last boards) nodes.old }
    ensures { Written used result (walked (is_open holders.now without) n spare left index last boards) nodes.old nodes.new }
{
    if !is_open(holders, without, boards) {
        return used;
    }
    if left == 0 {
        nodes[used] = node_of(index, last, boards);
        return used + 1;
    }
    let mut next = index * u32::from(spare + left);
    let mut at = used;
    for c in 0..n {
        if !member(boards, c) {
            let below = boards | (1 << c);
            if is_open(holders, without, below) {
                if left == 1 {
                    nodes[at] = node_of(next, c, below);
                    at += 1;
                } else {
                    at = walk(
                        holders,
                        n,
                        spare,
                        without,
                        next,
                        c,
                        below,
                        left - 1,
                        at,
                        nodes,
                    );
                }
            }
            next += 1;
        }
    }
    at
}

// The nodes of a level that the frame of board q carries to a board, in cell order; their count.
pub fn carried_nodes(tabled: &TabledPlan, board: u8, q: u8, level: u8, nodes: &mut [u32]) -> usize
    requires { Walkable tabled.now.plan level (carried tabled.now.plan q board level) tabled.now.holders nodes.old }
    ensures { Lists tabled.now.plan result (carried tabled.now.plan q board level) nodes.old nodes.new }
{
    let plan = tabled.plan;
    let without = set_of(q) | barred_to(plan, board);
    walk(
        &tabled.holders,
        plan.n,
        plan.n - level,
        without,
        0,
        plan.dealer,
        1 << plan.dealer,
        level - 1,
        0,
        nodes,
    )
}

// The internal nodes of a level, in cell order; their count.
pub fn inner_nodes(tabled: &TabledPlan, board: u8, level: u8, nodes: &mut [u32]) -> usize
    requires { Walkable tabled.now.plan level (inner tabled.now.plan board level) tabled.now.holders nodes.old }
    ensures { Lists tabled.now.plan result (inner tabled.now.plan board level) nodes.old nodes.new }
{
    carried_nodes(tabled, board, 8, level, nodes)
}
