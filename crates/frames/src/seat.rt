// A board that keeps cells, in a round of an accepted plan, with the plan's table of holders.
ghost use Rattle.std.specs.Prelude.{◌≡◌};
ghost use Rattle.frames.specs.Nodes.{Standing};

use schedule::rounds::{Round, Run};
use tables::asking::TabledPlan;

#[derive(Clone, Copy, Debug, PartialEq, Eq)]
pub struct Seat {
    pub tabled: TabledPlan,
    pub board: u8,
    pub run: Run,
    pub round: Round,
    ghost standing: { Standing tabled.plan tabled.holders board round },
}

impl Seat {
    pub fn new(tabled: TabledPlan, board: u8, run: Run, round: Round) -> Seat
        requires { Standing tabled.plan tabled.holders board round }
        ensures plan { result.tabled.plan ≡ tabled.plan }
        ensures board { result.board ≡ board }
        ensures run { result.run ≡ run }
        ensures round { result.round ≡ round }
    {
        Seat {
            tabled,
            board,
            run,
            round,
        }
    }
}
