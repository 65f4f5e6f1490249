// Plans, and the call that makes one.
ghost use Rattle.std.specs.Prelude.{◌≡◌, ◌-◌, ◌≤◌, ◌++◌, length, replicate};
ghost use Rattle.refusals.specs.Outcome.{verdict};
ghost use Rattle.plan.specs.Calls.{plans, plan_on, void_plan, judged, plan_says};

use admission::limits::{BOARDS, SETS};
use codec::value::{BLANK, Value};
use refusals::refusal::Refusal;
use settings::planning::judge;
use settings::settings::Settings;

// A list of sets, a dealer, a span (values are below it), a default (a value, put where one is missing or masked) and a
// depth (0: the tree is not cut).
// The slots of `sets` past the count are ignored.
#[derive(Clone, Copy, Debug, PartialEq, Eq)]
pub struct Plan {
    pub n: u8,
    pub dealer: u8,
    pub span: Value,
    pub default: Value,
    pub depth: u8,
    pub count: u8,
    pub sets: [u8; SETS],
}

impl Plan {
    // The most boards.
    pub const BOARDS: u8 = BOARDS;
    // The most sets.
    pub const SETS: usize = SETS;
    // A cell without a value; no value is it, since values are below a span of at most this.
    pub const BLANK: Value = BLANK;

    // Planning: 1 to 7, 26, 8, in order.
    #[tactic(auto, using(refusals::proofs::Outcomes::refusing, crate::proofs::Accepted::planning_gives), unfolding(refusals::specs::Outcome::verdict, crate::specs::Calls::plan_says))]
    pub fn new(n: u8, sets: &[u8], settings: Settings) -> Result<Plan, Refusal>
        ensures { plan_says result ≡ plans n sets.now settings }
    {
        judge(n, sets, settings)?;
        Ok(Plan::on(n, sets, settings))
    }

    // The plan's own fields: 1 to 7, 26, 8. Above 32 sets only the number of boards comes before 3.
    #[tactic(auto, using(crate::proofs::Own::judging), unfolding(refusals::specs::Outcome::verdict, refusals::specs::Outcome::refusal))]
    pub fn judge(self) -> Result<(), Refusal>
        ensures { verdict result ≡ judged self }
    {
        let count = usize::from(self.count);
        if Plan::SETS < count {
            if self.n == 0 || Plan::BOARDS < self.n {
                return Err(Refusal::Boards);
            }
            return Err(Refusal::TooManySets);
        }
        let settings = Settings {
            dealer: self.dealer,
            span: self.span,
            default: self.default,
            depth: self.depth,
        };
        judge(self.n, &self.sets[..count], settings)
    }

    // A plan that every call refuses; the definitions have it beside a refusal.
    #[tactic(auto, unfolding(crate::specs::Calls::void_plan))]
    pub fn void() -> Plan
        ensures { result ≡ void_plan }
    {
        Plan {
            n: 0,
            dealer: 0,
            span: 0,
            default: 0,
            depth: 0,
            count: 0,
            sets: [0u8; SETS],
        }
    }

    // The plan on at most 32 sets.
    #[tactic(auto, unfolding(crate::specs::Calls::plan_on))]
    fn on(n: u8, sets: &[u8], settings: Settings) -> Plan
        requires { length sets.now ≤ 32 }
        ensures { result ≡ plan_on n sets.now settings }
    {
        Plan {
            n,
            dealer: settings.dealer,
            span: settings.span,
            default: settings.default,
            depth: settings.depth,
            count: sets.len() as u8,
            sets: copied(sets),
        }
    }
}

// At most 32 sets in 32 slots, 00 past the last.
fn copied(sets: &[u8]) -> [u8; SETS]
    requires { length sets.now ≤ 32 }
    ensures { result ≡ sets.now ++ replicate (32 - length sets.now) 0 }
{
    let mut slots = [0u8; SETS];
    slots[..sets.len()].copy_from_slice(sets);
    slots
}
