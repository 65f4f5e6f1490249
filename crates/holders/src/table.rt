// The table of holders: for every set of boards 0 to 6 the place of the first listed set that holds it, FF if none does.
ghost use Rattle.std.specs.Prelude.{◌≡◌, ◌≤◌, min, length};
ghost use Rattle.tolerance.specs.Places.{place_says, found_at};
ghost use Rattle.holders.specs.Holders.{holder_table, holder_in, holds, Asked};
ghost use Rattle.holders.specs.Filling.{stage, folding};

use tolerance::bytes::byte_place;

// Each listed set at its own number, without board 7: its first place.
fn listings(sets: &[u8]) -> [u8; 128]
    requires { length sets.now ≤ 255 }
    ensures { result ≡ stage sets.now 0 }
{
    let mut table = [255u8; 128];
    for i in (0..sets.len()).rev() {
        table[usize::from(sets[i] % 128)] = i as u8;
    }
    table
}

// The top bit of each number moves to the bottom; where it is 0 there, the earlier place of both counts.
fn folded(from: [u8; 128]) -> [u8; 128]
    ensures { result ≡ folding from }
{
    let mut to = [255u8; 128];
    for t in 0..64 {
        let with = from[64 + t];
        to[2 * t] = from[t].min(with);
        to[2 * t + 1] = with;
    }
    to
}

// The table for a list of sets.
pub fn holders_of(sets: &[u8]) -> [u8; 128]
    requires { length sets.now ≤ 255 }
    ensures { result ≡ holder_table sets.now }
{
    let mut table = listings(sets);
    for _ in 0..7u8 {
        table = folded(table);
    }
    table[0] = 0;
    table
}

// The test of a set by the table: the first listed set that holds a.
pub fn holder_in(holders: &[u8], a: u8) -> Option<usize>
    requires { Asked holders.now a }
    ensures { place_says result ≡ found_at (holder_in holders.now a) }
{
    byte_place(holders[a as usize])
}

// Does a have a place?
pub fn holds(holders: &[u8], a: u8) -> bool
    requires { Asked holders.now a }
    ensures { result ≡ holds holders.now a }
{
    holder_in(holders, a).is_some()
}
