// What a drone does by commands.

/// What a command has a drone do.
#[derive(Clone, Copy)]
pub enum Action {
    /// It arms (MAVLink common messages, MAV_CMD_COMPONENT_ARM_DISARM with 1).
    Arm,
    /// It disarms, and stops (MAV_CMD_COMPONENT_ARM_DISARM with 0).
    Disarm,
    /// It starts its mission at the first item (MAV_CMD_MISSION_START).
    Start,
    /// It returns to its home (MAV_CMD_NAV_RETURN_TO_LAUNCH).
    Return,
}
