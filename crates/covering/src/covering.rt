// Number 5: three sets that cover all boards.
ghost use Rattle.std.specs.Prelude.{◌≡◌, min, length};
ghost use Rattle.sets.specs.Structure.{tolerated};
ghost use Rattle.tolerance.specs.Bytes.{place_byte};
ghost use Rattle.tolerance.specs.Places.{place_says};
ghost use Rattle.refusals.specs.Outcome.{verdict};
ghost use Rattle.covering.specs.Cover.{covering};
ghost use Rattle.covering.specs.Pairs.{place_in, union_of, outside, others, third_held, second_held, first_held, Limited, WithTable, Pair, Paired};

use holders::table::{holder_in, holders_of, holds};
use refusals::refusal::Refusal;
use sets::boards::{all_boards, within};

// The boards that stand in some set.
fn union_of(sets: &[u8]) -> u8
    ensures { result ≡ union_of sets.now (length sets.now) }
{
    let mut boards: u8 = 0;
    for &s in sets {
        boards |= s;
    }
    boards
}

// The boards below n that are not in s.
fn outside_of(n: u8, s: u8) -> u8
    ensures { result ≡ outside (min n 8) s }
{
    all_boards(n) & !s
}

// The boards that the sets at i and j leave.
fn others_of(n: u8, sets: &[u8], i: usize, j: usize) -> u8
    requires { Pair n sets.now i j }
    ensures { result ≡ others n sets.now i j }
{
    outside_of(n, sets[i] | sets[j])
}

// The place of the first set that holds them.
fn third_held(n: u8, sets: &[u8], holders: &[u8], i: usize, j: usize) -> Option<usize>
    requires { Paired n sets.now holders.now i j }
    ensures { place_byte (place_says result) ≡ third_held n sets.now i j }
{
    holder_in(holders, others_of(n, sets, i, j))
}

// Does a set hold them?
fn are_held(n: u8, sets: &[u8], holders: &[u8], i: usize, j: usize) -> bool
    requires { Paired n sets.now holders.now i j }
    ensures { result ≡ tolerated sets.now (others n sets.now i j) }
{
    holds(holders, others_of(n, sets, i, j))
}

// The first j from i on for which a set holds what the sets at i and j leave.
fn second_held(n: u8, sets: &[u8], holders: &[u8], i: usize) -> Option<usize>
    requires { WithTable n sets.now holders.now }
    ensures { result ≡ place_in sets.now (second_held n sets.now i) }
{
    (i..sets.len()).find(|&j| are_held(n, sets, holders, i, j))
}

// The first i for which there is such a j.
fn first_held(n: u8, sets: &[u8], holders: &[u8]) -> Option<usize>
    requires { WithTable n sets.now holders.now }
    ensures { result ≡ place_in sets.now (first_held n sets.now) }
{
    (0..sets.len()).find(|&i| second_held(n, sets, holders, i).is_some())
}

// Number 5: the first pair for which a set holds what both leave, and that set. They are the first triple.
fn judge_pairs(n: u8, sets: &[u8]) -> Result<(), Refusal>
    requires { Limited n sets.now }
    ensures { verdict result ≡ covering n sets.now }
{
    let holders = holders_of(sets);
    let Some(i) = first_held(n, sets, &holders) else {
        return Ok(());
    };
    // For this i there are both.
    let j = second_held(n, sets, &holders, i).unwrap();
    let k = third_held(n, sets, &holders, i, j).unwrap();
    Err(Refusal::Covered(i as u8, j as u8, k as u8))
}

// Number 5. Where a board stands in no set no three sets cover, and no pair is tried.
pub fn judge_cover(n: u8, sets: &[u8]) -> Result<(), Refusal>
    requires { Limited n sets.now }
    ensures { verdict result ≡ covering n sets.now }
{
    if within(all_boards(n), union_of(sets)) {
        judge_pairs(n, sets)
    } else {
        Ok(())
    }
}
