//! The two ends of the parameter protocol as state machines without links or clocks: a `ParamServer` on a drone, which
//! holds a list of parameters with distinct ids, and a `ParamClient` on a station, which reads, sets and lists them.
//! Messages and ticks go in, messages and ends of operations come out. Each is defined by total functions in specs/
//! (`server_step`, `client_step`, `client_tick`), and no call but the constructors allocates.
#![tactic(auto)]

mod client;
mod ends;
mod faults;
mod laws;
mod messages;
mod operations;
mod params;
mod places;
mod server;
mod types;
mod values;

pub use client::ParamClient;
pub use ends::{ParamEnd, ParamTick};
pub use faults::{ParamBusy, ParamFault};
pub use laws::{
    every_client, every_end, every_idle_client, every_server, every_value, every_whole_list,
};
pub use params::Param;
pub use server::ParamServer;
use std::alloc::AllocError;

pub type NoMemory = AllocError;
