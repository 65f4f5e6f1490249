// Rounds and runs of a plan.
ghost use Rattle.std.specs.Prelude.{◌≡◌, ◌-◌};
ghost use Rattle.sets.specs.Bounded.{Bounded};
ghost use Rattle.schedule.specs.Schedule.{rounds, runs, steps, ceil_div};

use heights::height::{depth_of, height, is_cut};
use plan::plan::Plan;

// The number of a run, from 1.
#[derive(Clone, Copy, Debug, PartialEq, Eq, PartialOrd, Ord)]
pub struct Run(pub u8);

// The number of a round within a run, from 1.
#[derive(Clone, Copy, Debug, PartialEq, Eq, PartialOrd, Ord)]
pub struct Round(pub u8);

// ⌈(n − 3) / (b − 3)⌉; 0 for a depth that no cut tree has.
fn later_runs(n: u8, depth: u8) -> u8
    ensures { Bounded result (ceil_div (n - 3) (depth - 3)) 252 }
{
    if depth <= 3 {
        return 0;
    }
    n.saturating_sub(3).div_ceil(depth - 3)
}

// The last round of every run, R.
#[tactic(auto, unfolding(crate::specs::Schedule::rounds))]
pub fn rounds(plan: Plan) -> Round
    ensures { result ≡ rounds plan }
{
    if is_cut(plan) {
        Round(depth_of(plan))
    } else {
        Round(height(plan))
    }
}

// The last run, T.
#[tactic(auto, unfolding(crate::specs::Schedule::runs))]
pub fn runs(plan: Plan) -> Run
    ensures { result ≡ runs plan }
{
    if is_cut(plan) {
        Run(later_runs(plan.n, depth_of(plan)) + 1)
    } else {
        Run(1)
    }
}

// The rounds over all runs.
pub fn steps(plan: Plan) -> usize
    ensures { result ≡ steps plan }
{
    let t = usize::from(runs(plan).0);
    let k = usize::from(rounds(plan).0);
    k + (t - 1) * (k - 1)
}
