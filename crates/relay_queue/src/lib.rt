//! What waits to be written to a link of a relay.
//!
//! A [`Queue`] has whole frames, of which at most 1 MiB wait: where a frame more would pass that, the oldest waiting
//! ones are dropped, and counted. A frame of which a part was written is never dropped. Its contract sees the rest of
//! that frame and the list of those that wait; [`laws`] says that what was pushed is delivered in order, but for what
//! was dropped. Its bytes in memory are bounded by its type. Only [`Queue::new`] and [`Queue::push`] allocate.
#![tactic(auto)]

mod backlog;
pub mod laws;
mod queue;

pub use queue::Queue;
use std::alloc::AllocError;

/// There was no memory.
pub type NoMemory = AllocError;
