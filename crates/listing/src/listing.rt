// A board's list of the boards that it has detected to be faulty. `specs/Listing` of crate protocol says what it keeps.
ghost use Rattle.std.specs.Prelude.{◌≡◌, ◌<◌};
ghost use Rattle.protocol.specs.Listing.{no_entries, join, as_set};

use protocol::records::{Entry, Rule, Slot};
use schedule::rounds::{Round, Run};
use sets::choosing::set_of;

// The list that names nobody.
pub fn no_entries() -> [Slot; 7]
    ensures { result ≡ no_entries }
{
    let entry = Entry::Nothing;
    [Slot { entry }; 7]
}

// The board joins the list, in a run and a round, by a rule; the list. There is no slot for board 7 or above.
pub fn join(board: u8, run: Run, round: Round, rule: Rule, list: [Slot; 7]) -> [Slot; 7]
    ensures { result ≡ join board run round rule list }
{
    if 7 <= board {
        return list;
    }
    let mut grown = list;
    grown[usize::from(board)].entry = Entry::Listed(run, round, rule);
    grown
}

// The list as a set.
#[tactic(auto, unfolding(protocol::specs::Listing::as_set, protocol::specs::Listing::entry_at, protocol::specs::Listing::has_entry))]
pub fn as_set(list: [Slot; 7]) -> u8
    ensures { result ≡ as_set list }
{
    let is_listed = |board|
        requires { board < 7 }
    { matches!(list[usize::from(board)].entry, Entry::Listed(..)) };
    set_of(7, is_listed)
}
