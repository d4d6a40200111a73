//! Drones and stations as nodes over datagrams, or over streams that come in pieces: each frame that comes in is
//! tried, an admitted plan message goes to the node's plan core, one of commands, parameters or files to its services,
//! and what they reply is sent at once in signed frames.
//!
//! A node reports all that happened as a list of [`News`]; a caller sends the frames among them. What a node does is a
//! total function of its state, what comes in, the clock and what its store keeps. It has no link of its own, no clock
//! and no store. Of a stream it holds the bytes that are in no frame yet, at most 280.
//!
//! A drone's store, which is handed to each call, has its plans and a low bound of timestamps: a drone that starts
//! again has those plans, and admits and sends only timestamps above the bound. The drone saves before a timestamp
//! above the stored bound is admitted or sent, and before its plans change. If a save fails it loads, and what the
//! store then has decides: a change of plans that isn't stored is refused, and a bound that isn't stored, or a load
//! that fails too, is a fault, after which the node isn't used again.
#![tactic(auto)]

mod drone_core;
mod drone_files;
mod drone_flights;
mod drone_node;
mod drone_params;
mod drone_services;
mod faults;
mod heartbeats;
pub mod laws;
mod link;
mod news;
mod no_store;
mod node;
mod orders;
mod services;
mod station_files;
mod station_node;
mod station_services;
mod steps;
mod stores;

pub use drone_node::DroneNode;
pub use faults::{NodeFault, OrderFault, StartFault};
pub use news::{FileEnd, News};
pub use orders::{FileOp, Order};
pub use station_node::StationNode;
use std::alloc::AllocError;

pub type NoMemory = AllocError;
