//! The rules of a relay, whose links open and close while it runs.
//!
//! A [`Links`] is what it keeps: the links that are open, each with a number that no other ever had, which nodes are
//! behind each, and the one verifier of all. It represents a `RelayState` of specs/, in which each open link has the
//! list of the nodes that were learned there; each of its calls is a step of that state. A frame never goes back to
//! its own link, and what was learned of a link goes with it. Only [`Links::new`] and [`Links::make_room`] allocate.
#![tactic(auto)]

pub mod laws;
mod links;

pub use links::{Heard, Links, OpenLink};
use std::alloc::AllocError;

/// There was no memory.
pub type NoMemory = AllocError;
