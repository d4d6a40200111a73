// One polygon, as the items that are its corners.
ghost use Rattle.std.specs.Prelude.{◌≡◌, map, count_by, int_le};
ghost use Rattle.std.specs.List.{list_any};
ghost use Rattle.drone_sim.specs.Sim.{location_of};
ghost use Rattle.fence_watch.specs.Fences.{spans as spans_at, passes_over as goes_over};
ghost use Rattle.fence_watch.specs.Fences.{crosses_ray as crosses_its_ray, edges_of, meets_border as meets_the_border};
ghost use Rattle.fence_watch.specs.Fences.{is_on_border as is_on_the_border, is_inside as is_inside_of};

use crate::Point;
use crate::segments::{Segment, meet, side};
use plan_items::Item;

/// Where an item is.
pub(crate) fn location(item: &Item) -> Point
    ensures { result ≡ location_of item.now }
{
    Point {
        x: item.x,
        y: item.y,
    }
}

/// An edge meets the segment.
pub(crate) fn meets_border(leg: Segment, corners: &[Item]) -> bool
    ensures { result ≡ meets_the_border leg (map location_of corners.now) }
{
    let [first, rest @ ..] = corners else {
        return false;
    };
    let first = location(first);
    let mut from = first;
    for corner in rest {
        let to = location(corner);
        if meet(leg, Segment { from, to }) {
            return true;
        }
        from = to;
    }
    meet(leg, Segment { from, to: first })
}

pub(crate) fn is_on_border(at: Point, corners: &[Item]) -> bool
    ensures { result ≡ is_on_the_border at (map location_of corners.now) }
{
    meets_border(Segment { from: at, to: at }, corners)
}

// The x of the point is from that of `a` up to that of `b`.
fn spans(at: Point, a: Point, b: Point) -> bool
    ensures { result ≡ spans_at at a b }
{
    a.x <= at.x && at.x < b.x
}

fn passes_over(at: Point, a: Point, b: Point) -> bool
    ensures { result ≡ goes_over at a b }
{
    spans(at, a, b) && side(a, b, at) < 0
}

// The ray from the point along greater y crosses the edge.
fn crosses_ray(at: Point, edge: Segment) -> bool
    ensures { result ≡ crosses_its_ray at edge }
{
    passes_over(at, edge.from, edge.to) || passes_over(at, edge.to, edge.from)
}

// How many edges the ray crosses.
fn crossings(at: Point, corners: &[Item]) -> usize
    ensures { result ≡ count_by (crosses_its_ray at) (edges_of (map location_of corners.now)) }
{
    let [first, rest @ ..] = corners else {
        return 0;
    };
    let first = location(first);
    let mut from = first;
    let mut count = 0;
    for corner in rest {
        let to = location(corner);
        count += usize::from(crosses_ray(at, Segment { from, to }));
        from = to;
    }
    count + usize::from(crosses_ray(at, Segment { from, to: first }))
}

/// The point is on no edge, and an odd number of edges lies over it.
pub(crate) fn is_inside(at: Point, corners: &[Item]) -> bool
    ensures { result ≡ is_inside_of at (map location_of corners.now) }
{
    !is_on_border(at, corners) && crossings(at, corners) % 2 == 1
}

/// A corner has this x or a lesser one.
pub(crate) fn has_corner_down_to(x: i32, corners: &[Item]) -> bool
    ensures { result ≡ list_any (λ corner. int_le corner.x x) (map location_of corners.now) }
{
    for corner in corners {
        if location(corner).x <= x {
            return true;
        }
    }
    false
}

/// A corner has this x or a greater one.
pub(crate) fn has_corner_up_to(x: i32, corners: &[Item]) -> bool
    ensures { result ≡ list_any (λ corner. int_le x corner.x) (map location_of corners.now) }
{
    for corner in corners {
        if x <= location(corner).x {
            return true;
        }
    }
    false
}
