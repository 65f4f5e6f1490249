// The numbers of 01 and of 02.
ghost use Rattle.std.specs.Prelude.{◌≡◌};
ghost use Rattle.refusals.specs.Outcome.{refusal};

use crate::refusal::Refusal;

impl Refusal {
    // The number of a refusal.
    #[tactic(auto, unfolding(crate::specs::Outcome::refusal))]
    pub fn number(self) -> u8
        ensures { result ≡ (refusal self).number }
    {
        match self {
            Refusal::Boards => 1,
            Refusal::TooManySets => 3,
            Refusal::UnknownBoard => 4,
            Refusal::Covered(_, _, _) => 5,
            Refusal::Dealer => 6,
            Refusal::Span => 7,
            Refusal::Depth => 8,
            Refusal::BoardNumber => 9,
            Refusal::BoardIsDealer => 10,
            Refusal::ShortCells => 11,
            Refusal::BadRecord => 12,
            Refusal::Decided => 13,
            Refusal::NotDue => 14,
            Refusal::AlreadyTaken => 15,
            Refusal::NothingToSend => 16,
            Refusal::ShortOutput => 17,
            Refusal::BadValue => 18,
            Refusal::Undecided => 19,
            Refusal::LongSheet => 20,
            Refusal::BadText => 21,
            Refusal::BadHead => 22,
            Refusal::BadFaulty => 23,
            Refusal::BadFrame => 24,
            Refusal::Default => 26,
        }
    }
}
