// One item of a plan.

/// An item as MISSION_ITEM_INT carries it (MAVLink guide, Mission Protocol: Mission Items).
#[derive(Clone, Copy)]
pub struct Item {
    pub frame: u8,
    pub command: u16,
    pub current: u8,
    pub autocontinue: u8,
    /// The words of param1 to param4: the bits of IEEE 754 floats, which are only compared.
    pub p: [u32; 4],
    /// Latitude in units of 1e-7 degrees.
    pub x: i32,
    /// Longitude in units of 1e-7 degrees.
    pub y: i32,
    /// The word of the altitude in metres.
    pub z: u32,
}
