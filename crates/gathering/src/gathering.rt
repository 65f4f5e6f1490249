// What closing a round gathers: what was not handed in, the board's own cells, and the list by rule G.
ghost use Rattle.std.specs.Prelude.{◌≡◌, ◌≤◌, cond, set, length};
ghost use Rattle.sets.specs.Sets.{member};
ghost use Rattle.plan.specs.Values.{default};
ghost use Rattle.tree.specs.Places.{cell_count};
ghost use Rattle.frames.specs.Nodes.{First};
ghost use Rattle.gathering.specs.Gathered.{Gathers};

use codec::value::Value;
use copying::copying::copy_own;
use detection::detecting::detect_cells;
use filling::filling::fill_missing;
use frames::seat::Seat;
use plan::plan::Plan;
use protocol::records::Slot;
use sets::boards::member;

// Round 1: the default at the root, unless the dealer's frame was taken.
fn gather_word(plan: Plan, marks: u8, cells: &mut [Value])
    requires { First plan cells.old }
    ensures { cells.new ≡ cond (member plan.dealer marks) cells.old (set cells.old 0 (default plan)) }
{
    if !member(marks, plan.dealer) {
        cells[0] = plan.default();
    }
}

// What a round gathers; the list. In later rounds: what was not handed in, the board's own cells, and rule G.
pub fn gather_round(seat: &Seat, marks: u8, list: [Slot; 7], cells: &mut [Value]) -> [Slot; 7]
    requires { cell_count seat.now.tabled.plan.n ≤ length cells.old }
    ensures { Gathers seat.now.tabled.plan seat.now.board seat.now.run seat.now.round marks list result cells.old cells.new }
{
    if seat.round.0 == 1 {
        gather_word(seat.tabled.plan, marks, cells);
        return list;
    }
    fill_missing(seat, marks, cells);
    copy_own(seat, cells);
    detect_cells(seat, list, cells)
}
