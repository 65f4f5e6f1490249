// Rule G at a node: what the children's cells say of its last board.
ghost use Rattle.std.specs.Prelude.{◌≡◌, ◌≤◌, ◌+◌, ◌-◌, ◌*◌, ◌/◌};
ghost use Rattle.protocol.specs.Detection.{by_cell, passes, detect_g};
ghost use Rattle.frames.specs.Nodes.{node_at};
ghost use Rattle.rule_g.specs.Visits.{Above, Visit};

use codec::value::Value;
use explaining::explained::explained_by;
use filling::filling::silence;
use frames::seat::Seat;
use internal::node::{boards_of, index_of, last_of};
use listing::listing::{as_set, join};
use protocol::records::{Rule, Slot};
use sets::boards::member;
use tables::asking::TabledPlan;
use voting::worth::child_table;

// Where the first child of a node stands; `start` is where its level starts.
fn first_child(n: u8, level: u8, node: u32, start: usize) -> usize
    requires { Above n level start }
    ensures { result ≡ start + node / 1024 * (n - level) }
{
    start + index_of(node) * (n - level) as usize
}

// Does rule G leave the list as it is at a node?
#[tactic(auto, unfolding(protocol::specs::Detection::passes))]
fn passes(
    tabled: &TabledPlan,
    level: u8,
    node: u32,
    start: usize,
    list: [Slot; 7],
    cells: &[Value],
) -> bool
    requires { Visit tabled.now.plan tabled.now.holders level node start cells.now }
    ensures { result ≡ passes tabled.now.plan (node_at tabled.now.plan level node) (by_cell tabled.now.plan cells.now (node_at tabled.now.plan level node)) list }
{
    let set = as_set(list);
    let boards = boards_of(node);
    member(set, last_of(node))
        || explained_by(
            tabled,
            boards,
            child_table(
                tabled.plan.n,
                boards,
                first_child(tabled.plan.n, level, node, start),
                cells,
                |x| tabled.plan.value(x),
            ),
            set,
        )
}

// Rule G at a node; the list.
pub fn detect_at(
    seat: &Seat,
    node: u32,
    start: usize,
    list: [Slot; 7],
    cells: &mut [Value],
) -> [Slot; 7]
    requires later { 2 ≤ seat.now.round.0 }
    requires visit { Visit seat.now.tabled.plan seat.now.tabled.holders (seat.now.round.0 - 1) node start cells.old }
    ensures { record { list = result; cells = cells.new } ≡ detect_g seat.now.tabled.plan seat.now.board seat.now.run seat.now.round (node_at seat.now.tabled.plan (seat.now.round.0 - 1) node) (record { list = list; cells = cells.old }) }
{
    let level = seat.round.0 - 1;
    if passes(&seat.tabled, level, node, start, list, cells) {
        return list;
    }
    let end = last_of(node);
    silence(seat, end, cells);
    join(end, seat.run, seat.round, Rule::G(level), list)
}
