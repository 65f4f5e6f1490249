// The digits of a byte.
ghost use Rattle.std.specs.Prelude.{◌≡◌, [], ◌+◌, ◌≤◌, ◌<◌, length};
ghost use Rattle.std.proofs.lemmas.List.Edits.{sets};
ghost use Rattle.hexadecimal.specs.Hex.{hex_digit, hex_byte};

// A digit as a character.
#[tactic(auto, unfolding(hexadecimal::specs::Hex::hex_digit))]
fn digit_char(x: u8) -> u8
    requires { x < 16 }
    ensures { result ≡ hex_digit x }
{
    match x {
        0..=9 => b'0' + x,
        _ => b'A' + (x - 10),
    }
}

// A byte as two digits.
#[tactic(auto, unfolding(hexadecimal::specs::Hex::hex_byte))]
pub fn print_byte(out: &mut [u8], at: usize, x: u8)
    requires { at + 2 ≤ length out.old }
    ensures { out.new ≡ sets out.old at (hex_byte x []) }
{
    out[at] = digit_char(x / 16);
    out[at + 1] = digit_char(x % 16);
}
