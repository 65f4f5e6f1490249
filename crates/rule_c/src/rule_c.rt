// Rule C over the nodes of a level, and over the levels. Every node's cell holds what it resolved to.
ghost use Rattle.std.specs.Prelude.{◌≡◌, ◌-◌};
ghost use Rattle.schedule.specs.Schedule.{rounds};
ghost use Rattle.protocol.specs.Nodes.{inner};
ghost use Rattle.resolving.specs.Promises.{WholeTree};
ghost use Rattle.rule_c.specs.Promises.{AtNodes, AtLevel};
ghost use Rattle.rule_c.specs.Reading.{detect_by, levels_by};

use children::children::passes_at;
use codec::value::Value;
use internal::node::{index_of, last_of};
use levels::levels::level_start;
use listing::listing::join;
use protocol::limits::NODES;
use protocol::records::{Rule, Slot};
use schedule::rounds::{Round, Run};
use tables::asking::TabledPlan;
use walk::nodes::inner_nodes;

// The rule over the internal nodes of a level, in cell order; the list. Apart from rule G's loop, whose cells change from node to node.
fn detect_nodes(
    tabled: &TabledPlan,
    board: u8,
    run: Run,
    round: Round,
    level: u8,
    nodes: &[u32],
    list: [Slot; 7],
    cells: &[Value],
) -> [Slot; 7]
    requires { AtNodes tabled.now.plan tabled.now.holders board level nodes.now cells.now }
    ensures { result ≡ detect_by tabled.now.plan run round cells.now (inner tabled.now.plan board level) list }
{
    let start = level_start(tabled.plan.n, level + 1);
    let width = (tabled.plan.n - level) as usize;
    let mut grown = list;
    for &node in nodes {
        let from = start + index_of(node) * width;
        if !passes_at(tabled, from, node, grown, cells) {
            // By a name of its own: the check lays no call's result in an array that stands.
            let joined = join(last_of(node), run, round, Rule::C(level), grown);
            grown = joined;
        }
    }
    grown
}

fn detect_level(
    tabled: &TabledPlan,
    board: u8,
    run: Run,
    round: Round,
    level: u8,
    list: [Slot; 7],
    cells: &[Value],
) -> [Slot; 7]
    requires { AtLevel tabled.now.plan tabled.now.holders board level cells.now }
    ensures { result ≡ detect_by tabled.now.plan run round cells.now (inner tabled.now.plan board level) list }
{
    let mut nodes = [0u32; NODES];
    let count = inner_nodes(tabled, board, level, &mut nodes);
    detect_nodes(
        tabled,
        board,
        run,
        round,
        level,
        &nodes[..count],
        list,
        cells,
    )
}

// The rule over levels `top` - 1 down to 1, where `top` is the last round; the list.
pub fn detect_levels(
    tabled: &TabledPlan,
    board: u8,
    run: Run,
    round: Round,
    top: u8,
    list: [Slot; 7],
    cells: &[Value],
) -> [Slot; 7]
    requires { WholeTree tabled.now.plan tabled.now.holders board top cells.now }
    ensures { result ≡ levels_by tabled.now.plan board run round cells.now ((rounds tabled.now.plan).0 - 1) list }
{
    let mut grown = list;
    for level in (1..top).rev() {
        let next = detect_level(tabled, board, run, round, level, grown, cells);
        grown = next;
    }
    grown
}
