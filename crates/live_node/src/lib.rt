//! One live node over a link: a drone or a station, in turns.
//!
//! [`run_drone`] sends a heartbeat, and then reads the link turn by turn: the frames that a piece completes are heard,
//! and an idle link lets time pass. [`run_station`] gives one order after its heartbeat, and takes turns until that
//! has an end. What a call of the node sends is written to the link, and then its lines to the output, before the next
//! read. The contract says of a run which calls of the node it is made of, in the same definitions as a scenario's,
//! that its turns are the link's answers in order, and what was written of it, however it ends.
//!
//! [`run_asked_drone`] and [`run_asked_station`] do so for the words of a command line, with the key, the file and the
//! store that these name.
#![tactic(auto)]

mod drone_asked;
mod drones;
mod ends;
mod nodes;
mod order_words;
mod run_log;
mod sending;
mod station_asked;
mod stations;
mod telling;
mod turns;

pub use drone_asked::{Store, run_asked_drone};
pub use drones::{DronePlan, run_drone, run_new_drone};
pub use nodes::LiveNode;
pub use run_log::{Ending, RunLog};
pub use station_asked::run_asked_station;
pub use stations::{StationPlan, run_station};
use std::alloc::AllocError;

/// There was no memory.
pub type NoMemory = AllocError;
