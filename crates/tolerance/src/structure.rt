// Adversary structures, given by listed sets.
ghost use Rattle.std.specs.Prelude.{◌≡◌};
ghost use Rattle.sets.specs.Structure.{holder};
ghost use Rattle.tolerance.specs.Places.{place_says, found_at};

use sets::boards::within;

// The test whether a is tolerated: the place, from 0, of the first listed set that holds it.
pub fn holder(sets: &[u8], a: u8) -> Option<usize>
    ensures { place_says result ≡ found_at (holder sets.now a) }
{
    if a == 0 {
        return Some(0);
    }
    sets.iter().position(|&s| within(a, s))
}
