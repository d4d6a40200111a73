// The items that a line of items gives.
ghost use Rattle.std.specs.Prelude.{◌≡◌, ◌≤◌, ◌++◌, ◌+ℤ◌, pos, false, OnOk, FitsSigned};
ghost use Rattle.std.specs.Int.{w32};
ghost use Rattle.plan_items.specs.Plans.{items_of};
ghost use Rattle.scenario_lines.specs.ItemRows.{items_from};
ghost use Rattle.scenario_lines.specs.Reasons.{leaves_range};

use crate::NoMemory;
use plan_items::{Item, Plan};

// An item `by` units to the north.
fn moved(item: Item, by: u64) -> Item
    requires few { by ≤ 2000 }
    requires fits { FitsSigned w32 (item.x +ℤ pos by) }
    ensures { result ≡ record item { x = item.x +ℤ pos by } }
{
    let mut moved = item;
    moved.x += by as i32;
    moved
}

/// Adds `count` items to a plan, the i-th from 0 with the x of the first plus i.
pub fn put_items(plan: &mut Plan, count: u64, first: Item) -> Result<(), NoMemory>
    requires few { count ≤ 2000 }
    requires fits { leaves_range count first ≡ false }
    ensures { OnOk result (items_of plan.new ≡ items_of plan.old ++ items_from count first 0) }
{
    for i in 0..count {
        plan.push(moved(first, i))?;
    }
    Ok(())
}
