// The ranges are those of the code's types.
ghost use Rattle.plan_ranges.specs.Ranges.{InRange, ItemInRange, NameInRange};

use mav_names::Name;
use plan_items::{Item, PlanMsg};

/// A name, by its type.
pub fn every_typed_name(name: Name)
    ensures { NameInRange name }
{
    let _sys = name.sys;
    let _comp = name.comp;
}

/// An item, by its type.
pub fn every_typed_item(item: Item)
    ensures { ItemInRange item }
{
    let _p = item.p;
    let _x = item.x;
    let _y = item.y;
}

/// A plan message, by its type.
pub fn every_typed_message(m: PlanMsg)
    ensures { InRange m }
{
    match m {
        PlanMsg::Count { to, .. }
        | PlanMsg::Request { to, .. }
        | PlanMsg::Ack { to, .. }
        | PlanMsg::List { to, .. }
        | PlanMsg::Clear { to, .. }
        | PlanMsg::Ping { to, .. } => every_typed_name(to),
        PlanMsg::Item { to, item, .. } => {
            every_typed_name(to);
            every_typed_item(item);
        }
    }
}
