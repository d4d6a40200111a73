//! Dialects: the messages that a program knows, read from definitions as JSON or taken from the built-in profile.
//!
//! `Dialect::read` accepts exactly the grammar of docs/MANUAL.md and returns the first fault. A message is found by
//! its id without a scan, or by its index. Nothing here reads a file or a packet.
#![tactic(auto)]

mod dialect;
mod faults;
mod known;
mod laying;
mod layouts;
mod low_indices;
mod message;
mod name_set;
mod names;
mod profile;
mod reading;
mod shape;
mod types;

pub use dialect::Dialect;
pub use faults::DialectFault;
use std::alloc::AllocError;
pub use types::type_word;

pub type NoMemory = AllocError;
