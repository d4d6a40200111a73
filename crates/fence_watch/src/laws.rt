// What the definitions by tests say of points and segments.
ghost use Rattle.std.specs.Prelude.{◌↔◌, List, IsTrue};
ghost use Rattle.drone_sim.specs.declared.points.Point.{Point};
ghost use Rattle.fence_watch.specs.declared.segments.Segment.{Segment};
ghost use Rattle.fence_watch.specs.Segments.{Meet, meet};
ghost use Rattle.fence_watch.specs.Fences.{Polygon, Allowed, allows, Touched, is_touched};

/// Two segments pass the test by signs of cross products if and only if they have a point in common.
pub fn meetings_are_exact()
    ensures { (a b : Segment) → IsTrue (meet a b) ↔ Meet a b }
{}

/// A fence allows a point by the tests if and only if it does by its polygons.
pub fn allowed_exactly()
    ensures { (fence : List Polygon) → (p : Point) → IsTrue (allows fence p) ↔ Allowed fence p }
{}

/// A way touches a fence by the tests if and only if it has a point in common with an edge.
pub fn touched_exactly()
    ensures { (fence : List Polygon) → (a b : Point) → IsTrue (is_touched fence a b) ↔ Touched fence a b }
{}
