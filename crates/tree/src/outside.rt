// The boards outside a set.
ghost use Rattle.std.specs.Prelude.{◌≡◌};
ghost use Rattle.tree.specs.Places.{outside_below};

use sets::boards;

// How many boards below k are outside the set s.
pub fn outside_below(s: u8, k: u8) -> u8
    ensures { result ≡ outside_below s k }
{
    let mut seen = 0;
    for i in 0..k {
        if !boards::member(s, i) {
            seen += 1;
        }
    }
    seen
}
