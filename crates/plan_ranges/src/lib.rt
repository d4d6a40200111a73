//! That plan messages stay in the ranges of the fields that carry them, as laws: functions that do nothing, and
//! whose contracts are true of every state.
//!
//! The definitions of a drone and a station count without a bound. From states in range, each step and tick
//! leads to a state in range, and sends a message in range; such a message fits its payload. `specs/Ranges` has
//! the ranges.
#![tactic(auto)]

mod drones;
mod examples;
mod messages;
mod stations;
mod types;

pub use drones::{every_drone, every_fresh_drone};
pub use examples::small_ranges;
pub use messages::{every_heartbeat, every_kind, every_message, every_reading};
pub use stations::{every_fresh_station, every_operation, every_station};
pub use types::{every_typed_item, every_typed_message, every_typed_name};
