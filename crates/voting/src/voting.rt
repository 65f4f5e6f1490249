// Resolving a node from what its children are worth.
ghost use Rattle.std.specs.Prelude.{◌≡◌, not, ◌&&◌, ◌≤◌, ◌<◌, ltb};
ghost use Rattle.sets.specs.Sets.{member};
ghost use Rattle.voting.specs.Tables.{at, agreeing, elected, voted};

use codec::value::Value;
use plan::plan::Plan;
use sets::boards::member;
use sets::choosing::set_of;
use tables::asking::TabledPlan;

// The children worth v.
#[tactic(auto, unfolding(crate::specs::Tables::agreeing))]
fn agreeing_on(n: u8, boards: u8, values: [Value; 8], v: Value) -> u8
    requires { n ≤ 8 }
    ensures { result ≡ agreeing n boards values v }
{
    set_of(n, |c| !member(boards, c) && values[c as usize] == v)
}

// Is child c worth a value whose holders are not tolerated?
#[tactic(auto, unfolding(crate::specs::Tables::elected))]
fn elects(tabled: &TabledPlan, boards: u8, values: [Value; 8], c: u8) -> bool
    requires { c < tabled.now.plan.n }
    ensures { result ≡ (not (member c boards) && (ltb (at values c) tabled.now.plan.span && elected tabled.now.plan boards values (at values c))) }
{
    let v = values[c as usize];
    !member(boards, c)
        && v < tabled.plan.span
        && !tabled.tolerates(agreeing_on(tabled.plan.n, boards, values, v))
}

// The only value below m whose holders are not tolerated, of the children's own; the mark if there is none or more than one.
// The mark and no Option: the caller writes it into the node's cell, where 01 has it for none.
pub fn vote(tabled: &TabledPlan, boards: u8, values: [Value; 8]) -> Value
    ensures { result ≡ voted tabled.now.plan boards values }
{
    // Read here, so that the check knows that m is a word.
    let _span = tabled.plan.span;
    let mut found = Plan::BLANK;
    for c in 0..tabled.plan.n {
        let v = values[c as usize];
        if v != found && elects(tabled, boards, values, c) {
            if found != Plan::BLANK {
                return Plan::BLANK;
            }
            found = v;
        }
    }
    found
}
