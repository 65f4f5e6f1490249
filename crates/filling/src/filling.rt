// Closing a round after the first: what was not handed in.
ghost use Rattle.std.specs.Prelude.{◌≡◌, ◌≤◌, ◌<◌, [], length};
ghost use Rattle.protocol.specs.Nodes.{sent};
ghost use Rattle.protocol.specs.Rounds.{fill, fill_missing};
ghost use Rattle.tree.specs.Places.{cell_count};

use codec::value::Value;
use frames::seat::Seat;
use protocol::limits::VALUES;
use sets::boards::member;
use storing::storing::store_at;
use walk::nodes::carried_nodes;

// The default is stored at every place that a frame of board q fills.
pub fn silence(seat: &Seat, q: u8, cells: &mut [Value])
    requires later { 2 ≤ seat.now.round.0 }
    requires sender { q < seat.now.tabled.plan.n }
    requires enough { cell_count seat.now.tabled.plan.n ≤ length cells.old }
    ensures { cells.new ≡ fill seat.now.tabled.plan q (sent seat.now.tabled.plan q seat.now.board seat.now.round) [] cells.old }
{
    let level = seat.round.0 - 1;
    // The walk stands here and in each of copy_own, take_later and write_later: a helper that lends the list to a
    // closure is no plainer, since the closure over `cells` would need clauses of its own at each place.
    let mut nodes = [0u32; VALUES];
    let count = carried_nodes(&seat.tabled, seat.board, q, level, &mut nodes);
    store_at(seat.tabled.plan, level, q, &nodes[0..count], &[], cells);
}

// Due frames not handed in are stored as the default.
pub fn fill_missing(seat: &Seat, marks: u8, cells: &mut [Value])
    requires later { 2 ≤ seat.now.round.0 }
    requires enough { cell_count seat.now.tabled.plan.n ≤ length cells.old }
    ensures { cells.new ≡ fill_missing seat.now.tabled.plan seat.now.board seat.now.round marks seat.now.tabled.plan.n cells.old }
{
    for q in 0..seat.tabled.plan.n {
        if q != seat.board && !member(marks, q) {
            silence(seat, q, cells);
        }
    }
}
