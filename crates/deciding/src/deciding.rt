// Reading the decision.
ghost use Rattle.std.specs.Prelude.{◌≡◌};
ghost use Rattle.protocol.specs.Answers.{decision_says};
ghost use Rattle.protocol.specs.Calls.{deciding};

use codec::value::Value;
use judging::judging::judge_record;
use protocol::records::Record;
use refusals::refusal::Refusal;

// Reading the decision: 12, then 19.
#[tactic(auto, using(refusals::proofs::Outcomes::refusing), unfolding(refusals::specs::Outcome::verdict, refusals::specs::Outcome::refusal, refusals::specs::Outcome::and_then, protocol::specs::Answers::decision_says, protocol::specs::Calls::deciding))]
pub fn decide(r: Record) -> Result<Value, Refusal>
    ensures { decision_says result ≡ deciding r }
{
    judge_record(r)?;
    if !r.decided {
        return Err(Refusal::Undecided);
    }
    Ok(r.decision)
}
