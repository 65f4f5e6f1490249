// The set of the boards that pass a test.
ghost use Rattle.std.specs.Prelude.{◌≡◌, ℕ, ◌≤◌, ◌<◌, Bool};
ghost use Rattle.sets.specs.Sets.{set_of};

// The set of the boards below n that pass, as a byte.
pub fn set_of<F: Fn(u8) -> bool>(n: u8, passes: F) -> u8
    requires most { n ≤ 8 }
    requires callable { (c : ℕ) → c < n → F.pre passes c }
    ensures { (g : ℕ → Bool) → ((c : ℕ) (b : Bool) → c < n → F.post passes c b → b ≡ g c) → result ≡ set_of g n }
{
    let mut set = 0u8;
    for c in 0..n {
        if passes(c) {
            set |= 1 << c;
        }
    }
    set
}
