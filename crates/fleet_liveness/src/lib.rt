//! An uncontended upload ends installed and acknowledged: whatever was played before it, within its flow
//! line the drone installs the plan, and its station reports that it is installed.
//!
//! Nothing here runs. Each function has an empty body, and its contract is a law over the definitions
//! of fleet_world. `specs/Uncontended` says what is asked of the scenario's bytes.
#![tactic(auto)]

mod examples;
mod flows;
mod uploads;

pub use examples::small_uploads;
pub use flows::every_flow_with_room;
pub use uploads::every_uncontended_upload;
