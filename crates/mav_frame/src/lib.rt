//! Frames of MAVLink 2 and of MAVLink 1: their bytes, and the search for them in a stream.
//!
//! [`encode`] writes a [`Frame`], and [`look`] says what is at the start of some bytes: a frame, no frame and why, or
//! the beginning of one. The parse of a whole stream is defined here as a list of [`Event`]s, and [`parse`] is that
//! definition's program; a reader of streams that come in pieces is in the crate above. Frames of MAVLink 1 are read
//! only if the caller says so. Only [`parse`] allocates.
#![tactic(auto)]

mod checking;
mod encoding;
mod events;
mod frame_bytes;
mod frames;
pub mod laws;
mod looks;
mod numbers;
mod parsing;
mod raw;
mod tables;

pub use checking::{check_frame, frame_at, look};
pub use encoding::{OLD_STX, STX, encode, put};
pub use events::Event;
pub use frame_bytes::FrameBytes;
pub use frames::{Block, Frame};
pub use looks::{FrameCheck, Look, Why};
pub use numbers::bytes_6;
pub use parsing::{event_at, front_at, parse};
pub use raw::RawFrame;
use std::alloc::AllocError;
pub use tables::CrcExtras;

/// There was no memory.
pub type NoMemory = AllocError;
