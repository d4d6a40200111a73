// A fence that is watched.
ghost use Rattle.std.specs.Prelude.{◌≡◌, ◌↔◌, IsTrue, IfOk};
ghost use Rattle.plan_items.specs.Plans.{items_of};
ghost use Rattle.plan_items.specs.Validation.{goes_to_place};
ghost use Rattle.fence_watch.specs.Fences.{polygons_of, is_included, allows, Allowed, is_touched, Touched};
ghost use Rattle.fence_watch.specs.Judging.{is_beyond as is_beyond_fence, judged};

use crate::groups::{Test, any_polygon};
use crate::polygons::location;
use crate::segments::Segment;
use crate::{NoMemory, Point};
use plan_items::{Item, MavCommand, MissionResult, Plan};
use std::alloc::Global;
use std::marker::Model;

/// A fence that is watched. Contracts see its polygons.
#[derive(Drop)]
pub struct Watch {
    fence: Plan,
}

impl Model for Watch {
    ghost use Rattle.std.specs.Prelude.{List};
    ghost use Rattle.plan_items.specs.Plans.{items_of};
    ghost use Rattle.fence_watch.specs.Fences.{Polygon, polygons_of};

    ghost Value = { List Polygon };

    ghost view = { λ w. polygons_of (items_of w.fence) };
}

/// Whether an item with this command has a location that a drone is to go to.
pub fn goes_to_location(command: u16) -> bool
    ensures { result ≡ goes_to_place command }
{
    command == MavCommand::NAV_WAYPOINT
        || command == MavCommand::NAV_LAND
        || command == MavCommand::NAV_TAKEOFF
}

impl Watch {
    /// Watches over a copy of the fence. An empty one allows every point; of one that isn't valid, a vertex without a
    /// count is a polygon by itself, and a group that runs past the end is as long as what is left.
    pub fn new(alloc: Global, fence: &Plan) -> Result<Watch, NoMemory>
        ensures { IfOk result (λ watch. watch ≡ polygons_of (items_of fence.now)) }
    {
        let mut copy = Plan::with_room(alloc, fence.len())?;
        copy.fill(fence);
        Ok(Watch { fence: copy })
    }

    /// Whether a drone may be there. It takes no memory.
    pub fn allowed(&self, at: Point) -> bool
        ensures value { result ≡ allows self.now at }
        ensures exact { IsTrue result ↔ Allowed self.now at }
    {
        self.includes(at) && !any_polygon(Test::Excludes(at), self.fence.as_slice())
    }

    // There is no inclusion, or one has the point.
    fn includes(&self, at: Point) -> bool
        ensures { result ≡ is_included self.now at }
    {
        let items = self.fence.as_slice();
        !any_polygon(Test::IsInclusion, items) || any_polygon(Test::Includes(at), items)
    }

    /// Whether the way from `a` to `b` meets an edge of some polygon. It takes no memory.
    pub fn touches(&self, a: Point, b: Point) -> bool
        ensures value { result ≡ is_touched self.now a b }
        ensures exact { IsTrue result ↔ Touched self.now a b }
    {
        any_polygon(
            Test::Meets(Segment { from: a, to: b }),
            self.fence.as_slice(),
        )
    }

    // There are inclusions, and x is less than the least or greater than the greatest of their corners.
    fn is_beyond(&self, x: i32) -> bool
        ensures { result ≡ is_beyond_fence self.now x }
    {
        let items = self.fence.as_slice();
        any_polygon(Test::IsInclusion, items)
            && (!any_polygon(Test::ReachesDownTo(x), items)
                || !any_polygon(Test::ReachesUpTo(x), items))
    }

    /// The result code for an item of a mission, one of `MissionResult`, if it has a location and that isn't allowed.
    /// It takes no memory.
    pub fn judge(&self, item: &Item) -> Option<u8>
        ensures { result ≡ judged self.now item.now }
    {
        if !goes_to_location(item.command) {
            return None;
        }
        let place = location(item);
        if self.allowed(place) {
            return None;
        }
        if self.is_beyond(place.x) {
            Some(MissionResult::INVALID_X)
        } else {
            Some(MissionResult::INVALID_Y)
        }
    }
}
