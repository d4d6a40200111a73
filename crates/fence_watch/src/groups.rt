// The polygons of a fence, as groups of its items.
ghost use Rattle.std.specs.Prelude.{◌≡◌, ◌≤◌, map, true, false};
ghost use Rattle.std.specs.List.{list_any};
ghost use Rattle.plan_items.specs.Validation.{is_vertex as is_a_vertex};
ghost use Rattle.drone_sim.specs.Sim.{location_of};
ghost use Rattle.fence_watch.specs.Fences.{group_size, polygon_in, polygons_of};
ghost use Rattle.fence_watch.specs.Judging.{passes as passes_test};

use crate::Point;
use crate::polygons::{
    has_corner_down_to, has_corner_up_to, is_inside, is_on_border, meets_border,
};
use crate::segments::Segment;
use plan_items::{Item, MavCommand, word_small};

const MIN_VERTICES: u8 = 3;

/// What may be asked of a polygon.
#[derive(Clone, Copy)]
pub(crate) enum Test {
    IsInclusion,
    /// It is an inclusion, and the point is inside or on its border.
    Includes(Point),
    /// It is an exclusion, and the point is inside.
    Excludes(Point),
    /// An edge meets the segment.
    Meets(Segment),
    /// It is an inclusion with a corner at this x or a lesser one.
    ReachesDownTo(i32),
    /// It is an inclusion with a corner at this x or a greater one.
    ReachesUpTo(i32),
}

impl Test {
    fn passes(self, is_inclusion: bool, corners: &[Item]) -> bool
        ensures { result ≡ passes_test self (record {
          is_inclusion = is_inclusion;
          corners = map location_of corners.now;
        }) }
    {
        match self {
            Test::IsInclusion => is_inclusion,
            Test::Includes(at) => {
                is_inclusion && (is_inside(at, corners) || is_on_border(at, corners))
            }
            Test::Excludes(at) => !is_inclusion && is_inside(at, corners),
            Test::Meets(leg) => meets_border(leg, corners),
            Test::ReachesDownTo(x) => is_inclusion && has_corner_down_to(x, corners),
            Test::ReachesUpTo(x) => is_inclusion && has_corner_up_to(x, corners),
        }
    }
}

fn is_vertex(command: u16) -> bool
    ensures { result ≡ is_a_vertex command }
{
    command == MavCommand::FENCE_POLYGON_INCLUSION || command == MavCommand::FENCE_POLYGON_EXCLUSION
}

// How many items the group has that begins with this one.
fn group_len(first: &Item) -> u8
    ensures size { result ≡ group_size first.now }
    ensures some { 1 ≤ result }
{
    if !is_vertex(first.command) {
        return 1;
    }
    match word_small(first.p[0]) {
        Some(count) if count >= MIN_VERTICES => count,
        _ => 1,
    }
}

// The group is a polygon that passes the test.
fn group_passes(test: Test, first: &Item, group: &[Item]) -> bool
    ensures { result ≡ list_any (passes_test test) (polygon_in first.now group.now) }
{
    let is_inclusion = first.command == MavCommand::FENCE_POLYGON_INCLUSION;
    is_vertex(first.command) && test.passes(is_inclusion, group)
}

/// A polygon of the fence passes the test.
pub(crate) fn any_polygon(test: Test, items: &[Item]) -> bool
    ensures { result ≡ list_any (passes_test test) (polygons_of items.now) }
{
    let mut rest = items;
    while let Some(first) = rest.first() {
        let len = usize::from(group_len(first)).min(rest.len());
        if group_passes(test, first, &rest[..len]) {
            return true;
        }
        rest = &rest[len..];
    }
    false
}
