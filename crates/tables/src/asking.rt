// A plan with the table of holders of its listed sets, and the test whether a set is tolerated.
ghost use Rattle.std.specs.Prelude.{◌≡◌, ◌^◌, ◌≤◌, ◌<◌};
ghost use Rattle.sets.specs.Structure.{tolerated};
ghost use Rattle.plan.specs.Listed.{listed};
ghost use Rattle.tables.specs.Tabled.{Tabled};

use crate::listed::table_of;
use holders::table::holds;
use plan::plan::Plan;

// A plan on at most seven boards, and its own table.
#[derive(Clone, Copy, Debug, PartialEq, Eq)]
pub struct TabledPlan {
    pub plan: Plan,
    pub holders: [u8; 128],
    ghost tabled: { Tabled plan holders },
}

impl TabledPlan {
    pub fn new(plan: Plan) -> TabledPlan
        requires { plan.n ≤ 7 }
        ensures { result.plan ≡ plan }
    {
        let holders = table_of(plan);
        TabledPlan { plan, holders }
    }

    // Is a set of the plan's boards tolerated?
    pub fn tolerates(&self, s: u8) -> bool
        requires { s < 2 ^ self.now.plan.n }
        ensures { result ≡ tolerated (listed self.now.plan) s }
    {
        holds(&self.holders, s)
    }
}
