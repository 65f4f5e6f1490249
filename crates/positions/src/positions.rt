// The rounds that a plan has.
ghost use Rattle.std.specs.Prelude.{◌≡◌};
ghost use Rattle.schedule.specs.Schedule.{has_round};
ghost use Rattle.positions.specs.Positions.{is_round};

use plan::plan::Plan;
use schedule::rounds::{Round, Run, rounds, runs};

// Is this a round of this run, where the last run and the last round are these? Two parameters, as the definition has
// them: a struct of both would be taken apart at once.
#[tactic(auto, unfolding(crate::specs::Positions::is_round, schedule::specs::Schedule::first_round))]
pub fn is_round(last: Run, end: Round, run: Run, round: Round) -> bool
    ensures { result ≡ is_round last end run round }
{
    let first = if run == Run(1) { Round(1) } else { Round(2) };
    Run(1) <= run && run <= last && first <= round && round <= end
}

// Does the plan have this round of this run?
#[tactic(auto, unfolding(crate::specs::Positions::is_round, schedule::specs::Schedule::has_round))]
pub fn has_round(plan: Plan, run: Run, round: Round) -> bool
    ensures { result ≡ has_round plan run round }
{
    is_round(runs(plan), rounds(plan), run, round)
}
