// What a call answers, and how it is told.
ghost use Rattle.std.specs.Prelude.{◌≡◌};
ghost use Rattle.saying.specs.Saying.{said, told};

use protocol::answers::Closing;
use refusals::refusal::Refusal;

// What a call that is taken hands back.
#[derive(Clone, Copy, Debug, PartialEq, Eq)]
pub enum Answer {
    Nothing,
    Byte(u8),
    Pair(u8, u8),
}

impl From<[u8; 2]> for Answer {
    ghost use Rattle.std.specs.Prelude.{get_or};
    ghost use Rattle.saying.specs.declared.said.Answer.TheVariants.{Pair};

    ghost from_gives = { λ bytes a. a ≡ Pair (get_or bytes 0 0) (get_or bytes 1 0) };

    fn from(bytes: [u8; 2]) -> Answer {
        let [first, second] = bytes;
        Answer::Pair(first, second)
    }
}

impl From<Closing> for Answer {
    ghost use Rattle.std.specs.Prelude.{Ok};
    ghost use Rattle.protocol.specs.Answers.{open_says};
    ghost use Rattle.saying.specs.Saying.{said};

    ghost from_gives = { λ closing a. said (Ok a) ≡ open_says closing };

    #[tactic(auto, unfolding(crate::specs::Saying::said, protocol::specs::Answers::open_says))]
    fn from(closing: Closing) -> Answer {
        match closing {
            Closing::Next(run, round) => Answer::Pair(run.0, round.0),
            Closing::Decided => Answer::Nothing,
        }
    }
}

// The number of the refusal, 0 for a call that is taken; how many bytes stand beside it; the bytes, 0 past them.
#[tactic(auto, unfolding(crate::specs::Saying::said, crate::specs::Saying::told, refusals::specs::Outcome::refusal))]
pub fn told_bytes(answer: Result<Answer, Refusal>) -> [u8; 5]
    ensures { result ≡ told (said answer) }
{
    match answer {
        Ok(Answer::Nothing) => [0; 5],
        Ok(Answer::Byte(x)) => [0, 1, x, 0, 0],
        Ok(Answer::Pair(x, y)) => [0, 2, x, y, 0],
        Err(Refusal::Covered(i, j, k)) => [5, 3, i, j, k],
        Err(why) => [why.number(), 0, 0, 0, 0],
    }
}
