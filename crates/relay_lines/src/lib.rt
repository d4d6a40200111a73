//! The lines of a relay that wait for whoever reads its standard output.
//!
//! [`WaitingLines`] holds at most 64 KiB of lines that aren't written yet. A line for which there is no room is lost,
//! and counted; `lines lost N` tells how many, in their place, before the next line that has room or once no other
//! waits.
//! [`WaitingLines::next_line`] gives one line at a time, so that each is one write, or what is left of one of which a
//! part was written; [`laws`] says that what is written is every line in order, but for those that it tells are lost.
//! Only
//! [`WaitingLines::new`] allocates, and no other call fails.
#![tactic(auto)]

pub mod laws;
mod lines;

pub use lines::WaitingLines;
use std::alloc::AllocError;

/// There was no memory.
pub type NoMemory = AllocError;
