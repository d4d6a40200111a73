//! A scenario's world: drones and stations that exchange signed datagrams, one scenario line at a time.
//!
//! `World::read` reads a line or returns the first reason against it, `World::line` does a line and returns its
//! report,
//! `World::finish` returns the closing plans. What a line does is a function of the state (`after_line`); contracts
//! say which state a world is in (`IsState`). Nothing here reads a file, sends a packet or waits.
#![tactic(auto)]

mod calls;
mod closing;
mod events;
mod faults;
mod fleet;
mod flights;
mod flows;
mod lines;
mod locations;
mod node_calls;
mod nodes;
mod orders;
mod sent;
mod stored_drone;
mod world;

pub use faults::{Bound, WorldFault};
use std::alloc::AllocError;
pub use world::World;

/// There was no memory.
pub type NoMemory = AllocError;
