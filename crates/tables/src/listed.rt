// The listed sets of a plan.
ghost use Rattle.std.specs.Prelude.{◌≡◌, min};
ghost use Rattle.sets.specs.Structure.{held_at};
ghost use Rattle.holders.specs.Holders.{holder_table};
ghost use Rattle.plan.specs.Listed.{listed};

use holders::table::holders_of;
use plan::plan::Plan;
use tolerance::bytes::place_byte;
use tolerance::structure::holder;

// The slots that hold listed sets: as many as the count says, and at most all.
pub fn slots_used(count: u8) -> usize
    ensures { result ≡ min count 32 }
{
    usize::from(count).min(Plan::SETS)
}

// The table of holders of the listed sets.
pub fn table_of(plan: Plan) -> [u8; 128]
    ensures { result ≡ holder_table (listed plan) }
{
    holders_of(&plan.sets[..slots_used(plan.count)])
}

// The place of the first listed set that holds a, as a byte; FF if none does.
pub fn held_at(plan: Plan, a: u8) -> u8
    ensures { result ≡ held_at (listed plan) a }
{
    place_byte(holder(&plan.sets[..slots_used(plan.count)], a))
}
