//! The switch of a relay, whose links open and close while it runs.
//!
//! A [`Relay`] has the open links, in the order of their opening: who is behind each (`relay_rules`), the stream of
//! each (`mav_stream`), and what waits for each ([`Queues`], of `relay_queue`). It is given the bytes that came in at
//! a link, has each frame in them wait where the rules send it, and tells a [`Watcher`] of it. A `RelayRun` of specs/
//! is the whole history of its links and all their bytes, of which it keeps nothing; each call leads from a run by the
//! rules to the next one. It reads and writes nothing itself.
#![tactic(auto)]

mod hearing;
pub mod laws;
mod notes;
mod queues;
mod relay;
mod scanners;
mod strangers;
mod streams;
mod waiting;
mod watcher;

pub use notes::Note;
pub use queues::Queues;
pub use relay::Relay;
use std::alloc::AllocError;
pub use watcher::Watcher;

/// There was no memory.
pub type NoMemory = AllocError;
