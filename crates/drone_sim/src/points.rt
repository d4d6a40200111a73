// Where a drone is.

/// A position in units of 1e-7 degrees: `x` is the latitude and `y` the longitude, as in MISSION_ITEM_INT.
#[derive(Clone, Copy)]
pub struct Point {
    pub x: i32,
    pub y: i32,
}
