//! The main theorem over scenarios: whatever a scenario says, the calls of nodes that its lines make are an
//! execution of the world of messages, which its report shows, and in which each drone holds plans as the
//! abstract mission store allows. Its one premise is that the foreign bytes of a scenario bring no frame that
//! verifies and wasn't sent.
//!
//! Nothing here runs. Each function has an empty body, and its contract is a law over the definitions
//! of fleet_world and plan_safety. `specs/Actions` says what the lines are in the world of messages,
//! `specs/Causes` which events they can be, `specs/Reporting` what an execution reports, `specs/Safe` what the
//! theorem promises of a scenario, `specs/Meaning` what an operator may take from a report.
#![tactic(auto)]

mod meanings;
mod scenarios;

pub use meanings::every_line_reported;
pub use scenarios::{
    every_cause, every_delivery, every_quiet_scenario, every_report, every_scenario, every_tick,
};
