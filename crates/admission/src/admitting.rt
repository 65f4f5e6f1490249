// Admitting a list of sets.
ghost use Rattle.std.specs.Prelude.{◌≡◌, not, length, get_or};
ghost use Rattle.sets.specs.Search.{any};
ghost use Rattle.sets.specs.Sets.{within};
ghost use Rattle.refusals.specs.Outcome.{verdict};
ghost use Rattle.admission.specs.Calls.{admitting};

use crate::limits::{BOARDS, SETS};
use covering::covering::judge_cover;
use refusals::refusal::Refusal;
use sets::boards::{all_boards, within};

// Does a set name a board outside `all`?
fn names_other(sets: &[u8], all: u8) -> bool
    ensures { result ≡ any (λ i. not (within (get_or sets.now i 0) all)) (length sets.now) }
{
    // No `any`: in a loop the compiler tests many sets at once.
    for &s in sets {
        if !within(s, all) {
            return true;
        }
    }
    false
}

// Admitting a list of sets: 1, 3, 4 and 5, in order. An empty list tolerates the empty set only.
#[tactic(auto, using(crate::proofs::Scanned::scanned), unfolding(refusals::specs::Outcome::verdict, refusals::specs::Outcome::refusal, crate::specs::Calls::admitting))]
pub fn admit(n: u8, sets: &[u8]) -> Result<(), Refusal>
    ensures { verdict result ≡ admitting n (length sets.now) sets.now }
{
    if n == 0 || BOARDS < n {
        return Err(Refusal::Boards);
    }
    if SETS < sets.len() {
        return Err(Refusal::TooManySets);
    }
    if names_other(sets, all_boards(n)) {
        return Err(Refusal::UnknownBoard);
    }
    judge_cover(n, sets)
}
