// The dealer's frame.
ghost use Rattle.std.specs.Prelude.{◌≡◌};
ghost use Rattle.codec.specs.Codec.{current};
ghost use Rattle.protocol.specs.Answers.{dealt_says};
ghost use Rattle.protocol.specs.Calls.{dealing};

use codec::value::Value;
use plan::plan::Plan;
use refusals::refusal::Refusal;
use settings::settings::judge_value;

// The dealer's frame: 1 to 7, 26, 8, then 18.
#[tactic(auto, using(refusals::proofs::Outcomes::refusing), unfolding(refusals::specs::Outcome::verdict, refusals::specs::Outcome::refusal, refusals::specs::Outcome::and_then, protocol::specs::Answers::dealt_says, protocol::specs::Calls::dealing))]
pub fn deal(plan: Plan, value: Value) -> Result<[u8; 2], Refusal>
    ensures { dealt_says result ≡ dealing current plan value }
{
    plan.judge()?;
    judge_value(plan.span, value)?;
    Ok(value.to_be_bytes())
}
