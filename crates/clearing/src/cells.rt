// The cells of a board as a whole.
ghost use Rattle.std.specs.Prelude.{◌≡◌, ◌++◌, drop, replicate};
ghost use Rattle.codec.specs.Codec.{current, blank};
ghost use Rattle.tree.specs.Places.{cell_count};
ghost use Rattle.protocol.specs.Rounds.{root_only};
ghost use Rattle.clearing.specs.Clearing.{Clearable};

use codec::value::Value;
use levels::levels::cell_count;
use plan::plan::Plan;

// All cells of a board hold the mark, no value; surplus cells stay.
pub fn clear(plan: Plan, cells: &mut [Value])
    requires { Clearable plan cells.old }
    ensures { cells.new ≡ replicate (cell_count plan.n) (blank current) ++ drop (cell_count plan.n) cells.old }
{
    cells[..cell_count(plan.n)].fill(Plan::BLANK);
}

// The root becomes the first cell, all other cells of the board hold the mark.
pub fn keep_root(plan: Plan, root: Value, cells: &mut [Value])
    requires { Clearable plan cells.old }
    ensures { cells.new ≡ root_only current plan.n root cells.old }
{
    clear(plan, cells);
    cells[0] = root;
}
