//! What happens in a scenario, as a text: [`Report::add`] adds an [`Event`], and [`Report::plan`] a plan at the end.
//!
//! A report is a list of bytes that grows. It knows nothing of the world that it reports on, and decides nothing.
#![tactic(auto)]

mod event;
mod items;
mod messages;
mod params;
mod report;
mod texts;

pub use event::Event;
pub use report::Report;
use std::alloc::AllocError;

/// There was no memory.
pub type NoMemory = AllocError;
