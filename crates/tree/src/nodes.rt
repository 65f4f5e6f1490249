// Nodes by level, number and boards.
ghost use Rattle.std.specs.Prelude.{◌≡◌};
ghost use Rattle.tree.specs.Places.{child_index};

use crate::outside;

// The number, in its level, of a node's child by a board. The node is given by its level, its number and its mask.
pub fn child_index(n: u8, level: u8, index: u16, mask: u8, board: u8) -> usize
    ensures { result ≡ child_index n level index mask board }
{
    let below = usize::from(outside::outside_below(mask, board));
    usize::from(index) * usize::from(n.saturating_sub(level)) + below
}
