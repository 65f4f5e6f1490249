// What planning refuses.
ghost use Rattle.std.specs.Prelude.{◌≡◌, length};
ghost use Rattle.refusals.specs.Outcome.{verdict};
ghost use Rattle.settings.specs.Planning.{planning};

use crate::settings::{Settings, judge_settings};
use admission::admitting::admit;
use refusals::refusal::Refusal;

// 1 to 7, 26, 8, in order.
#[tactic(auto, using(refusals::proofs::Outcomes::refusing), unfolding(refusals::specs::Outcome::verdict, refusals::specs::Outcome::and_then, crate::specs::Planning::planning))]
pub fn judge(n: u8, sets: &[u8], settings: Settings) -> Result<(), Refusal>
    ensures { verdict result ≡ planning n (length sets.now) sets.now settings }
{
    admit(n, sets)?;
    judge_settings(n, settings)
}
