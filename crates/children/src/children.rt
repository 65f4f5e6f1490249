// Rule C at a node: what the resolved children say of its last board. Every node's cell holds what it resolved to.
ghost use Rattle.std.specs.Prelude.{◌≡◌, ◌%◌};
ghost use Rattle.children.specs.Standing.{passes_at};
ghost use Rattle.voting.specs.Worth.{Beside};

use codec::value::Value;
use explaining::explained::explained_by;
use internal::node::{boards_of, last_of};
use listing::listing::as_set;
use protocol::records::Slot;
use sets::boards::member;
use tables::asking::TabledPlan;
use voting::worth::child_table;

// Does the rule leave the list as it is at an internal node?
#[tactic(auto, unfolding(crate::specs::Standing::passes_at))]
pub fn passes_at(
    tabled: &TabledPlan,
    from: usize,
    node: u32,
    list: [Slot; 7],
    cells: &[Value],
) -> bool
    requires { Beside tabled.now.plan.n (node % 128) from cells.now }
    ensures { result ≡ passes_at tabled.now.plan cells.now from node list }
{
    let set = as_set(list);
    let boards = boards_of(node);
    member(set, last_of(node))
        || explained_by(
            tabled,
            boards,
            child_table(tabled.plan.n, boards, from, cells, |x| x),
            set,
        )
}
