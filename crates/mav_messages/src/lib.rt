//! The nineteen messages of the profile as values: the crates above use `Message` and its fields, and never
//! byte offsets.
//!
//! `write` gives the truncated payload that the message's definition lays out, `serialise` writes all of its bytes
//! into the caller's buffer, and `read` gives the message that a payload represents, whatever its length. All types
//! are Copy, and nothing here allocates, sends or decides anything.
#![tactic(auto)]

mod codes;
mod commands;
mod files;
mod messages;
mod mission_items;
mod missions;
mod nodes;
mod params;
mod plans;
mod words;

pub use codes::{
    MAVLINK_VERSION, MavAutopilot, MavModeFlag, MavParamType, MavResult, MavState, MavType,
    VehicleCommand,
};
pub use commands::{CommandAck, CommandLong};
pub use files::FileTransferProtocol;
pub use messages::Message;
pub use mission_items::MissionItemInt;
pub use missions::{
    MissionAck, MissionClearAll, MissionCount, MissionCurrent, MissionItemReached,
    MissionRequestInt, MissionRequestList,
};
pub use nodes::{GlobalPositionInt, Heartbeat, Ping, Statustext};
pub use params::{ParamRequestList, ParamRequestRead, ParamSet, ParamValue};
