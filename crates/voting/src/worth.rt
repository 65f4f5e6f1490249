// The table of what a node's children are worth, off their cells.
ghost use Rattle.std.specs.Prelude.{ℕ, ◌+◌, ◌<◌, ◌≡◌, get_or};
ghost use Rattle.std.proofs.Math.Option.{some};
ghost use Rattle.tree.specs.Places.{outside_below};
ghost use Rattle.voting.specs.Worth.{child_table, Beside};

use codec::value::Value;
use plan::plan::Plan;
use sets::boards::member;

// What the children of a node with these boards are worth by their cells, which stand side by side from `from`; the mark for a board of the node.
pub fn child_table<F: Fn(Value) -> Value>(
    n: u8,
    boards: u8,
    from: usize,
    cells: &[Value],
    worth: F,
) -> [Value; 8]
    requires beside { Beside n boards from cells.now }
    requires callable { F.IsAlwaysCallable worth }
    ensures { (g : ℕ → ℕ) → ((x y : ℕ) → x < 65536 → F.post worth x y → y ≡ g x) → result ≡ child_table (λ c. some (g (get_or cells.now (from + outside_below boards c) 0))) boards n }
{
    let mut values = [Plan::BLANK; 8];
    let mut at = from;
    for c in 0..n {
        if !member(boards, c) {
            values[c as usize] = worth(cells[at]);
            at += 1;
        }
    }
    values
}
