//! The two ends of the mission protocol for plans, as state machines without links, clocks or files:
//! a `Drone` that holds a plan of each kind, and a `Station` that uploads, clears and downloads them.
//! Plan messages and ticks go in, plan messages and outcomes come out. Each is defined by
//! one total step function in specs/ (`drone_step`, `drone_tick`, `station_step`, `station_tick`),
//! and no call but the constructors, `Station::get` and those that write a stored image allocates.
#![tactic(auto)]

mod addresses;
mod buffers;
mod changes;
mod downloads;
mod drone;
mod faults;
mod held;
mod laws;
mod operations;
mod outcomes;
mod results;
mod station;
mod synced;
mod uploads;
mod verdicts;

pub use addresses::receiver;
pub use changes::{Change, DroneStep};
pub use drone::Drone;
pub use faults::{BeginFault, OpFault};
pub use laws::{every_kept_plan, every_unchanging_step};
pub use outcomes::Outcome;
pub use plan_image::{Kept, KeptFault, read_kept};
pub use station::Station;
use std::alloc::AllocError;

pub type NoMemory = AllocError;
