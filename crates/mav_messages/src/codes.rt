// Numbers that messages carry, by their names in the MAVLink common messages. Those of plans are in plan_items.

/// Kinds of nodes (MAVLink common messages, MAV_TYPE).
pub struct MavType;

impl MavType {
    pub const QUADROTOR: u8 = 2;

    /// A ground station.
    pub const GCS: u8 = 6;
}

/// Autopilots of nodes (MAVLink common messages, MAV_AUTOPILOT).
pub struct MavAutopilot;

impl MavAutopilot {
    pub const GENERIC: u8 = 0;

    /// No autopilot at all, as at a ground station.
    pub const INVALID: u8 = 8;
}

/// Flags of `base_mode` (MAVLink common messages, MAV_MODE_FLAG).
pub struct MavModeFlag;

impl MavModeFlag {
    /// The motors may run.
    pub const SAFETY_ARMED: u8 = 128;
}

/// States of nodes (MAVLink common messages, MAV_STATE).
pub struct MavState;

impl MavState {
    pub const ACTIVE: u8 = 4;
}

/// Results of commands (MAVLink common messages, MAV_RESULT).
pub struct MavResult;

impl MavResult {
    pub const ACCEPTED: u8 = 0;

    pub const TEMPORARILY_REJECTED: u8 = 1;

    pub const DENIED: u8 = 2;

    pub const UNSUPPORTED: u8 = 3;

    pub const FAILED: u8 = 4;

    pub const IN_PROGRESS: u8 = 5;

    pub const CANCELLED: u8 = 6;
}

/// Types of parameters (MAVLink common messages, MAV_PARAM_TYPE).
pub struct MavParamType;

impl MavParamType {
    pub const UINT8: u8 = 1;

    pub const INT8: u8 = 2;

    pub const UINT16: u8 = 3;

    pub const INT16: u8 = 4;

    pub const UINT32: u8 = 5;

    pub const INT32: u8 = 6;

    pub const REAL32: u8 = 9;
}

/// Commands of COMMAND_LONG that are no items of plans (MAVLink common messages, MAV_CMD).
pub struct VehicleCommand;

impl VehicleCommand {
    pub const MISSION_START: u16 = 300;

    pub const COMPONENT_ARM_DISARM: u16 = 400;
}

/// The value of `mavlink_version` in HEARTBEAT (MAVLink guide, Heartbeat Protocol).
pub const MAVLINK_VERSION: u8 = 3;
