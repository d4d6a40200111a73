// Where a drone is.

/// Where a drone is, in units of 1e-7 degrees, and how many pictures it took since its start.
#[derive(Clone, Copy)]
pub struct Location {
    pub x: i32,
    pub y: i32,
    pub captures: u32,
}
