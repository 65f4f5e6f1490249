// Both rules at one node, from what its children are worth. `list` is the list as a set.
ghost use Rattle.std.specs.Prelude.{◌≡◌, ◌≤◌, ◌<◌};
ghost use Rattle.voting.specs.Tables.{dissenting, explains, explained_by};

use codec::value::Value;
use sets::boards::member;
use sets::choosing::set_of;
use tables::asking::TabledPlan;

// The children not worth v, and the boards of the list.
#[tactic(auto, unfolding(voting::specs::Tables::dissenting))]
fn dissenting_from(n: u8, boards: u8, values: [Value; 8], v: Value, list: u8) -> u8
    requires { n ≤ 8 }
    ensures { result ≡ dissenting n boards values v list }
{
    set_of(
        n,
        |c| !member(boards, c) && values[c as usize] != v || member(list, c),
    )
}

// Does the value of child c explain what the children are worth?
#[tactic(auto, unfolding(voting::specs::Tables::explains))]
fn explains_all(tabled: &TabledPlan, boards: u8, values: [Value; 8], list: u8, c: u8) -> bool
    requires { c < tabled.now.plan.n }
    ensures { result ≡ explains tabled.now.plan boards values list c }
{
    let v = values[c as usize];
    !member(boards, c)
        && v < tabled.plan.span
        && tabled.tolerates(dissenting_from(tabled.plan.n, boards, values, v, list))
}

// Does the value of some child?
pub fn explained_by(tabled: &TabledPlan, boards: u8, values: [Value; 8], list: u8) -> bool
    ensures { result ≡ explained_by tabled.now.plan boards values list }
{
    (0..tabled.plan.n).any(|c| explains_all(tabled, boards, values, list, c))
}
