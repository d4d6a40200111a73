// How a drone moves in one tick.
ghost use Rattle.std.specs.Prelude.{◌≡◌};
ghost use Rattle.drone_sim.specs.Moves.{towards as number_towards, moved as moved_towards, is_at as is_there};

use crate::Point;

// The number nearest to the target that is at most a step away.
fn towards(step: u32, from: i32, target: i32) -> i32
    ensures { result ≡ number_towards step from target }
{
    let from = i64::from(from);
    let step = i64::from(step);
    i64::from(target).clamp(from - step, from + step) as i32
}

/// The latitude and the longitude each go towards the target's, by at most the step.
pub(crate) fn moved(step: u32, from: Point, target: Point) -> Point
    ensures { result ≡ moved_towards step from target }
{
    Point {
        x: towards(step, from.x, target.x),
        y: towards(step, from.y, target.y),
    }
}

pub(crate) fn is_at(position: Point, target: Point) -> bool
    ensures { result ≡ is_there position target }
{
    position.x == target.x && position.y == target.y
}
