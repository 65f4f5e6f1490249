// The levels of a plan's tree, and whether it is cut.
ghost use Rattle.std.specs.Prelude.{◌≡◌, cond};
ghost use Rattle.sets.specs.Bounded.{Bounded};
ghost use Rattle.sets.specs.Sets.{member, size};
ghost use Rattle.heights.specs.Levels.{depth_of, largest, height, is_cut};

use plan::plan::Plan;
use sets::boards::{member, size};
use tables::listed::slots_used;

// The size of a set that holds board d; 0 if it does not, which no set with d has: 0 for none is the definition's.
fn size_with(s: u8, d: u8) -> u8
    ensures { Bounded result (cond (member d s) (size s) 0) 8 }
{
    if member(s, d) { size(s) } else { 0 }
}

// The size of the largest listed set that holds board d; 0 if there is none.
fn largest_with(sets: &[u8], d: u8) -> u8
    ensures { Bounded result (largest sets.now d) 8 }
{
    let mut most = 0;
    for &s in sets {
        most = size_with(s, d).max(most);
    }
    most
}

// The depth of the tree; 0: it is not cut.
pub fn depth_of(plan: Plan) -> u8
    ensures { result ≡ depth_of plan }
{
    plan.depth
}

// The number of levels, H.
pub fn height(plan: Plan) -> u8
    ensures { result ≡ height plan }
{
    let count = slots_used(plan.count);
    largest_with(&plan.sets[..count], plan.dealer) + 1
}

// Is the tree cut?
#[tactic(auto, unfolding(crate::specs::Levels::is_cut))]
pub fn is_cut(plan: Plan) -> bool
    ensures { result ≡ is_cut plan }
{
    let depth = depth_of(plan);
    depth != 0 && depth < height(plan)
}
