// The entries of a list: what number 12 asks of them.
ghost use Rattle.std.specs.Prelude.{◌≡◌};
ghost use Rattle.protocol.specs.Listing.{level_of};
ghost use Rattle.entries.specs.Entries.{is_good_entry, are_good_entries};

use positions::positions::is_round;
use protocol::records::{Entry, Rule, Slot};
use schedule::rounds::{Round, Run};

// The level of the node at which a rule listed a board. No method: `Rule` is declared in another crate.
#[tactic(auto, unfolding(protocol::specs::Listing::level_of))]
fn level_of(rule: Rule) -> u8
    ensures { result ≡ level_of rule }
{
    match rule {
        Rule::G(level) => level,
        Rule::C(level) => level,
    }
}

// May a record have this entry, where the last run and the last round are these?
#[tactic(auto, unfolding(crate::specs::Entries::is_good_entry))]
fn is_good_entry(last: Run, end: Round, entry: Entry) -> bool
    ensures { result ≡ is_good_entry last end entry }
{
    match entry {
        Entry::Nothing => true,
        Entry::Listed(run, round, rule) => {
            is_round(last, end, run, round) && (1..end.0).contains(&level_of(rule))
        }
    }
}

// All of a list.
pub fn are_good_entries(last: Run, end: Round, list: [Slot; 7]) -> bool
    ensures { result ≡ are_good_entries last end list }
{
    list.iter().all(|slot| is_good_entry(last, end, slot.entry))
}
