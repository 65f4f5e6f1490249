// The values of a plan.
ghost use Rattle.std.specs.Prelude.{◌≡◌};
ghost use Rattle.plan.specs.Values.{default, value};

use crate::plan::Plan;
use codec::value::Value;

impl Plan {
    // What stands in for a value that is missing or masked.
    #[tactic(auto, unfolding(crate::specs::Values::default))]
    pub fn default(self) -> Value
        ensures { result ≡ default self }
    {
        self.default
    }

    // A cell of m or more, read as a value, counts as the default.
    #[tactic(auto, unfolding(crate::specs::Values::value))]
    pub fn value(self, x: Value) -> Value
        ensures { result ≡ value self x }
    {
        if x < self.span { x } else { self.default() }
    }
}
