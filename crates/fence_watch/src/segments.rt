// Whether two segments meet.
ghost use Rattle.std.specs.Prelude.{◌≡◌, ◌≤◌, ◌^◌, ◌-ℤ◌, ◌*ℤ◌, int_le, unsigned_abs};
ghost use Rattle.std.specs.Int.{int_min, int_max};
ghost use Rattle.fence_watch.specs.Segments.{side as side_of, have_zero as numbers_have_zero};
ghost use Rattle.fence_watch.specs.Segments.{crosses_line as crosses_its_line, overlap as numbers_overlap};
ghost use Rattle.fence_watch.specs.Segments.{boxes_overlap as both_boxes_overlap, straddle as segments_straddle};
ghost use Rattle.fence_watch.specs.Segments.{meet as segments_meet};

use crate::Point;

/// The points from one to another, both ends included; the ends may be one point.
#[derive(Clone, Copy)]
pub(crate) struct Segment {
    pub(crate) from: Point,
    pub(crate) to: Point,
}

fn difference(to: i32, from: i32) -> i64
    ensures value { result ≡ to -ℤ from }
    ensures bound { unsigned_abs result ≤ 2 ^ 32 }
{
    i64::from(to) - i64::from(from)
}

fn product(a: i64, b: i64) -> i128
    requires first { unsigned_abs a ≤ 2 ^ 32 }
    requires second { unsigned_abs b ≤ 2 ^ 32 }
    ensures value { result ≡ a *ℤ b }
    ensures bound { unsigned_abs result ≤ 2 ^ 64 }
{
    i128::from(a) * i128::from(b)
}

/// On which side of the line through `o` and `a` the point lies: above 0 on the left, below 0 on the right.
pub(crate) fn side(o: Point, a: Point, p: Point) -> i128
    ensures { result ≡ side_of o a p }
{
    let left = product(difference(a.x, o.x), difference(p.y, o.y));
    let right = product(difference(a.y, o.y), difference(p.x, o.x));
    left - right
}

fn have_zero(m: i128, n: i128) -> bool
    ensures { result ≡ numbers_have_zero m n }
{
    m.min(n) <= 0 && 0 <= m.max(n)
}

// The ends of the other segment aren't both on one side of the line.
fn crosses_line(line: Segment, other: Segment) -> bool
    ensures { result ≡ crosses_its_line line other }
{
    let from = side(line.from, line.to, other.from);
    let to = side(line.from, line.to, other.to);
    have_zero(from, to)
}

// One of a and b is at most one of c and d.
fn reach(a: i32, b: i32, c: i32, d: i32) -> bool
    ensures { result ≡ int_le (int_min a b) (int_max c d) }
{
    a.min(b) <= c.max(d)
}

// The numbers from a to b and those from c to d have one in common.
fn overlap(a: i32, b: i32, c: i32, d: i32) -> bool
    ensures { result ≡ numbers_overlap a b c d }
{
    reach(a, b, c, d) && reach(c, d, a, b)
}

fn boxes_overlap(a: Segment, b: Segment) -> bool
    ensures { result ≡ both_boxes_overlap a b }
{
    overlap(a.from.x, a.to.x, b.from.x, b.to.x) && overlap(a.from.y, a.to.y, b.from.y, b.to.y)
}

fn straddle(a: Segment, b: Segment) -> bool
    ensures { result ≡ segments_straddle a b }
{
    crosses_line(a, b) && crosses_line(b, a)
}

/// The segments have a point in common.
pub(crate) fn meet(a: Segment, b: Segment) -> bool
    ensures { result ≡ segments_meet a b }
{
    boxes_overlap(a, b) && straddle(a, b)
}
