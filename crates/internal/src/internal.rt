// Which nodes are internal: the one test that the walk and resolving ask.
ghost use Rattle.std.specs.Prelude.{◌≡◌, ◌^◌, ◌<◌};
ghost use Rattle.holders.specs.Holders.{Asked};
ghost use Rattle.internal.specs.Tests.{is_open, barred, is_internal};

use holders::table::holds;
use plan::plan::Plan;
use tables::asking::TabledPlan;

// The boards that a node is without if it is internal to a board: none, nodes are internal to all boards alike.
#[tactic(auto, unfolding(crate::specs::Tests::barred))]
pub fn barred_to(plan: Plan, board: u8) -> u8
    ensures { result ≡ barred plan board }
{
    0
}

// Is a set of boards held, and without the boards of the set `without`?
#[tactic(auto, unfolding(crate::specs::Tests::is_open))]
pub fn is_open(holders: &[u8], without: u8, boards: u8) -> bool
    requires { Asked holders.now boards }
    ensures { result ≡ is_open holders.now without boards }
{
    boards & without == 0 && holds(holders, boards)
}

// Is a node with these boards internal to a board, if it is above the last level?
pub fn is_internal(tabled: &TabledPlan, board: u8, boards: u8) -> bool
    requires { boards < 2 ^ tabled.now.plan.n }
    ensures { result ≡ is_internal tabled.now.plan board boards }
{
    is_open(&tabled.holders, barred_to(tabled.plan, board), boards)
}
