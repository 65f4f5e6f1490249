// A place as a byte, FF for none: the table of holders has a byte for each of 128 sets, and a printed place is that byte.
ghost use Rattle.std.specs.Prelude.{◌≡◌};
ghost use Rattle.tolerance.specs.Places.{place_says, found_at};
ghost use Rattle.tolerance.specs.Bytes.{place_byte, byte_place};

// The byte for a place.
#[tactic(auto, unfolding(crate::specs::Places::place_says, crate::specs::Bytes::place_byte))]
pub fn place_byte(place: Option<usize>) -> u8
    ensures { result ≡ place_byte (place_says place) }
{
    match place {
        Some(i) => i.min(255) as u8,
        None => 255,
    }
}

// The place that a byte says.
#[tactic(auto, unfolding(crate::specs::Places::place_says, crate::specs::Places::found_at, crate::specs::Bytes::byte_place))]
pub fn byte_place(x: u8) -> Option<usize>
    ensures { place_says result ≡ found_at (byte_place x) }
{
    match x {
        255 => None,
        _ => Some(usize::from(x)),
    }
}
