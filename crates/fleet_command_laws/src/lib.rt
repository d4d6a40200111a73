//! Each `command` line leads to at most one command done otherwise than by the kept result between two
//! starts of its drone, whatever is lost, repeated or reordered.
//!
//! Nothing here runs. Each function has an empty body, and its contract is a law over the definitions
//! of fleet_world. `specs/Lines` says to which line a frame belongs, `specs/Done` at which frames a drone
//! does commands, and `specs/Once` what is promised.
#![tactic(auto)]

mod scenarios;

pub use scenarios::{every_accepted_line, every_command_once, every_frame, every_history};
