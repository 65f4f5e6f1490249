// What a plan has beside its sets, and what is refused of it.
ghost use Rattle.std.specs.Prelude.{◌≡◌, cond, [], leb};
ghost use Rattle.refusals.specs.Outcome.{taken, refused, verdict};
ghost use Rattle.settings.specs.Planning.{judge_settings};

use codec::value::Value;
use refusals::refusal::Refusal;

// The least span.
pub const LEAST_SPAN: Value = 2;
// The depths of a cut tree.
pub const SHALLOW: u8 = 4;

pub const DEEP: u8 = 7;

// A dealer, a span, a default and a depth.
#[derive(Clone, Copy, Debug, PartialEq, Eq)]
pub struct Settings {
    pub dealer: u8,
    pub span: Value,
    pub default: Value,
    pub depth: u8,
}

// A value, where it has to be below the span: 18.
#[tactic(auto, unfolding(refusals::specs::Outcome::verdict, refusals::specs::Outcome::refusal))]
pub fn judge_value(span: Value, value: Value) -> Result<(), Refusal>
    ensures { verdict result ≡ cond (leb span value) (refused 18) (taken []) }
{
    if span <= value {
        return Err(Refusal::BadValue);
    }
    Ok(())
}

// 6, 7, 26, 8.
#[tactic(auto, unfolding(refusals::specs::Outcome::verdict, refusals::specs::Outcome::refusal, crate::specs::Planning::judge_settings, crate::specs::Planning::is_depth))]
pub fn judge_settings(n: u8, settings: Settings) -> Result<(), Refusal>
    ensures { verdict result ≡ judge_settings n settings }
{
    if n <= settings.dealer {
        return Err(Refusal::Dealer);
    }
    if settings.span < LEAST_SPAN {
        return Err(Refusal::Span);
    }
    if settings.span <= settings.default {
        return Err(Refusal::Default);
    }
    match settings.depth {
        0 | SHALLOW..=DEEP => Ok(()),
        _ => Err(Refusal::Depth),
    }
}
