//! All ports of a relay as one value, whose links open and close while it runs.
//!
//! A [`Hub`] waits, says what happened, and reads and writes its open links by their indexes, in the order of their
//! opening; no call but `wait` waits. It promises which bytes each link ever gave and took, where it tells its bytes,
//! and of every hub how many links are open at which ports. [`MemHub`] is one over memory, at which happens what its
//! maker lists, and exact: it never needs memory once it is made.
#![tactic(auto)]

mod happenings;
mod hubs;
mod mem_calls;
mod mem_hub;
mod mem_tape;
mod news;

pub use happenings::Happening;
pub use hubs::Hub;
pub use mem_hub::MemHub;
pub use news::{HubNews, Stranger, Why};
use std::alloc::AllocError;

/// There was no memory.
pub type NoMemory = AllocError;
