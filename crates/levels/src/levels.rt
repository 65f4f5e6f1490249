// Sizes of levels, where levels start, and the number of cells.
// Outside the limits they are 0, and no Option: their clauses say 0 there, and they cannot fail.
ghost use Rattle.std.specs.Prelude.{◌≡◌};
ghost use Rattle.tree.specs.Places.{size_within, start_within, count_within};

// The places of level k with n boards, (n - 1)(n - 2)…(n - k + 1); 0 unless n is 1 to 7 and k is 1 to n.
pub fn level_size(n: u8, k: u8) -> usize
    ensures { result ≡ size_within n k }
{
    if 7 < n || n < k || k == 0 {
        return 0;
    }
    let mut size = 1;
    for level in 1..k {
        size *= usize::from(n - level);
    }
    size
}

// The places of the levels before level k; 0 unless n is 1 to 7. Counted from the last of them up: a node, with all that
// is below it, has one place and n - level times those of a child.
pub fn level_start(n: u8, k: u8) -> usize
    ensures { result ≡ start_within n k }
{
    if 7 < n {
        return 0;
    }
    let end = k.min(n + 1);
    let mut start = 0;
    for level in (1..end).rev() {
        start = 1 + start * usize::from(n - level);
    }
    start
}

// The cells of a board; 0 unless n is 1 to 7.
pub fn cell_count(n: u8) -> usize
    ensures { result ≡ count_within n }
{
    if 7 < n {
        return 0;
    }
    level_start(n, n + 1)
}
