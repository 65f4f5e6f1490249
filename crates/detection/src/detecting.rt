// Rule G over the nodes of a level.
ghost use Rattle.std.specs.Prelude.{◌≡◌, ◌≤◌, ◌-◌, length};
ghost use Rattle.protocol.specs.Nodes.{inner};
ghost use Rattle.protocol.specs.Detection.{detect_all_g};
ghost use Rattle.detection.specs.Scans.{Scans};
ghost use Rattle.frames.specs.Nodes.{labels_of};
ghost use Rattle.tree.specs.Places.{cell_count};

use codec::value::Value;
use frames::seat::Seat;
use levels::levels::level_start;
use protocol::limits::NODES;
use protocol::records::Slot;
use rule_g::rule_g::detect_at;
use walk::nodes::inner_nodes;

// Rule G over a list of nodes; the list of boards.
fn detect_list(seat: &Seat, nodes: &[u32], list: [Slot; 7], cells: &mut [Value]) -> [Slot; 7]
    requires { Scans seat.now.tabled.plan seat.now.round nodes.now cells.old }
    ensures { record { list = result; cells = cells.new } ≡ detect_all_g seat.now.tabled.plan seat.now.board seat.now.run seat.now.round (labels_of seat.now.tabled.plan (seat.now.round.0 - 1) nodes.now) (record { list = list; cells = cells.old }) }
{
    // Read here, so that the check knows that m is a word.
    let _span = seat.tabled.plan.span;
    let start = level_start(seat.tabled.plan.n, seat.round.0);
    let mut grown = list;
    for &node in nodes {
        // Bound first: the prover does not cover an array that a call lays in a variable of before.
        let next = detect_at(seat, node, start, grown, cells);
        grown = next;
    }
    grown
}

// Rule G over the internal nodes of the level before the round's; the list.
pub fn detect_cells(seat: &Seat, list: [Slot; 7], cells: &mut [Value]) -> [Slot; 7]
    requires later { 2 ≤ seat.now.round.0 }
    requires enough { cell_count seat.now.tabled.plan.n ≤ length cells.old }
    ensures { record { list = result; cells = cells.new } ≡ detect_all_g seat.now.tabled.plan seat.now.board seat.now.run seat.now.round (inner seat.now.tabled.plan seat.now.board (seat.now.round.0 - 1)) (record { list = list; cells = cells.old }) }
{
    let mut nodes = [0u32; NODES];
    let count = inner_nodes(&seat.tabled, seat.board, seat.round.0 - 1, &mut nodes);
    detect_list(seat, &nodes[0..count], list, cells)
}
