// Numbers that plans carry, by their names in the MAVLink common messages.

/// Result codes of missions (MAVLink common messages, MAV_MISSION_RESULT).
pub struct MissionResult;

impl MissionResult {
    pub const ACCEPTED: u8 = 0;

    pub const ERROR: u8 = 1;

    pub const UNSUPPORTED_FRAME: u8 = 2;

    pub const UNSUPPORTED: u8 = 3;

    pub const NO_SPACE: u8 = 4;

    pub const INVALID: u8 = 5;

    pub const INVALID_PARAM1: u8 = 6;

    pub const INVALID_PARAM2: u8 = 7;

    pub const INVALID_PARAM3: u8 = 8;

    pub const INVALID_PARAM4: u8 = 9;

    /// The x of an item, MAV_MISSION_INVALID_PARAM5_X.
    pub const INVALID_X: u8 = 10;

    /// The y of an item, MAV_MISSION_INVALID_PARAM6_Y.
    pub const INVALID_Y: u8 = 11;

    /// The z of an item, MAV_MISSION_INVALID_PARAM7.
    pub const INVALID_Z: u8 = 12;

    pub const INVALID_SEQUENCE: u8 = 13;

    pub const DENIED: u8 = 14;

    pub const OPERATION_CANCELLED: u8 = 15;
}

/// Coordinate frames of items (MAVLink common messages, MAV_FRAME).
pub struct MavFrame;

impl MavFrame {
    pub const GLOBAL: u8 = 0;

    /// No location at all: x and y mean nothing.
    pub const MISSION: u8 = 2;

    pub const GLOBAL_RELATIVE_ALT: u8 = 3;

    pub const GLOBAL_INT: u8 = 5;

    pub const GLOBAL_RELATIVE_ALT_INT: u8 = 6;
}

/// Commands of items (MAVLink common messages, MAV_CMD).
pub struct MavCommand;

impl MavCommand {
    pub const NAV_WAYPOINT: u16 = 16;

    pub const NAV_RETURN_TO_LAUNCH: u16 = 20;

    pub const NAV_LAND: u16 = 21;

    pub const NAV_TAKEOFF: u16 = 22;

    pub const IMAGE_START_CAPTURE: u16 = 2000;

    pub const FENCE_RETURN_POINT: u16 = 5000;

    pub const FENCE_POLYGON_INCLUSION: u16 = 5001;

    pub const FENCE_POLYGON_EXCLUSION: u16 = 5002;

    pub const RALLY_POINT: u16 = 5100;
}
