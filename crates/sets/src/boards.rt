// Sets of boards as bytes: bit i means board i.
ghost use Rattle.std.specs.Prelude.{◌≡◌, min};
ghost use Rattle.sets.specs.Sets.{member, within, boards, size};
ghost use Rattle.sets.specs.Bounded.{Bounded};

// Is board i in the set s?
pub fn member(s: u8, i: u8) -> bool
    ensures { result ≡ member i s }
{
    i < 8 && (s >> i) % 2 == 1
}

// Does a lie within s?
pub fn within(a: u8, s: u8) -> bool
    ensures { result ≡ within a s }
{
    (a & s) == a
}

// All boards below n; a byte has room for eight.
pub fn all_boards(n: u8) -> u8
    ensures { result ≡ boards (min n 8) }
{
    if 8 <= n {
        return 255;
    }
    (1 << n) - 1
}

// How many boards a set has.
pub fn size(s: u8) -> u8
    ensures { Bounded result (size s) 8 }
{
    s.count_ones() as u8
}
