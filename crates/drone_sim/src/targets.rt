// Where the items of a mission send a drone.
ghost use Rattle.std.specs.Prelude.{◌≡◌, ◌<◌};
ghost use Rattle.plan_items.specs.Plans.{items_of};
ghost use Rattle.plan_items.specs.Validation.{goes_to_place};
ghost use Rattle.drone_sim.specs.Sim.{target_of as item_target, ends_flight as command_ends, has_item as items_have};
ghost use Rattle.drone_sim.specs.Sim.{beyond as course_beyond};

use crate::{Course, Point};
use plan_items::{Item, MavCommand, Plan};

fn goes_to_location(command: u16) -> bool
    ensures { result ≡ goes_to_place command }
{
    command == MavCommand::NAV_WAYPOINT
        || command == MavCommand::NAV_LAND
        || command == MavCommand::NAV_TAKEOFF
}

/// Where an item sends a drone with that home, if it sends it anywhere.
pub(crate) fn target_of(home: Point, item: &Item) -> Option<Point>
    ensures { result ≡ item_target home item.now }
{
    if goes_to_location(item.command) {
        return Some(Point {
            x: item.x,
            y: item.y,
        });
    }
    if item.command == MavCommand::NAV_RETURN_TO_LAUNCH {
        return Some(home);
    }
    None
}

// The drone disarms at such an item.
fn ends_flight(command: u16) -> bool
    ensures { result ≡ command_ends command }
{
    command == MavCommand::NAV_RETURN_TO_LAUNCH || command == MavCommand::NAV_LAND
}

// There is an item of that number, which has 16 bits.
fn has_item(plan: &Plan, number: usize) -> bool
    ensures { result ≡ items_have (items_of plan.now) number }
{
    number < plan.len() && number < 65_536
}

/// The course once an item is reached.
pub(crate) fn beyond(plan: &Plan, number: u16, item: &Item) -> Course
    ensures { result ≡ course_beyond (items_of plan.now) number item.now }
{
    if ends_flight(item.command) {
        return Course::Disarmed;
    }
    let next = usize::from(number) + 1;
    if has_item(plan, next) {
        Course::Flying(next as u16)
    } else {
        Course::Resting
    }
}
