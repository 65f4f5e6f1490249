// Storing a frame at the children of the nodes that it carries.
ghost use Rattle.std.specs.Prelude.{◌≡◌};
ghost use Rattle.codec.specs.Codec.{current, decode};
ghost use Rattle.protocol.specs.Rounds.{fill, counted};
ghost use Rattle.frames.specs.Nodes.{labels_of, entry, Storable};

use codec::value::{Value, value_at, value_count};
use internal::node::{boards_of, index_of};
use levels::levels::level_start;
use listing::listing::as_set;
use plan::plan::Plan;
use protocol::records::Slot;
use sets::boards::member;
use tree::nodes::child_index;

// Value number i of a frame; the default where it has none.
#[tactic(auto, unfolding(frames::specs::Nodes::entry))]
fn entry_at(plan: Plan, frame: &[u8], i: usize) -> Value
    ensures { result ≡ entry plan (decode current frame.now) i }
{
    if i < value_count(frame) {
        plan.value(value_at(frame, i))
    } else {
        plan.default()
    }
}

// A frame's values are stored at the nodes' children by board q; where values are lacking, the default.
pub fn store_at(plan: Plan, level: u8, q: u8, nodes: &[u32], frame: &[u8], cells: &mut [Value])
    requires { Storable plan level q nodes.now cells.old }
    ensures { cells.new ≡ fill plan q (labels_of plan level nodes.now) (decode current frame.now) cells.old }
{
    let start = level_start(plan.n, level + 1);
    for (i, &node) in nodes.iter().enumerate() {
        // By `as`: a node's number is below 720, and `From` has no conversion of a usize to a u16.
        let child = child_index(plan.n, level, index_of(node) as u16, boards_of(node), q);
        cells[start + child] = entry_at(plan, frame, i);
    }
}

// A frame that is taken is stored. One of another length, or of a listed board, has no values.
pub fn store_frame(
    plan: Plan,
    level: u8,
    q: u8,
    list: [Slot; 7],
    nodes: &[u32],
    frame: &[u8],
    cells: &mut [Value],
)
    requires { Storable plan level q nodes.now cells.old }
    ensures { cells.new ≡ fill plan q (labels_of plan level nodes.now) (counted list q (labels_of plan level nodes.now) (decode current frame.now)) cells.old }
{
    let values = if value_count(frame) == nodes.len() && !member(as_set(list), q) {
        frame
    } else {
        &[]
    };
    store_at(plan, level, q, nodes, values, cells);
}
