//! Signed links of MAVLink 2: keys, signatures, timestamps, the admission of frames, and a node's end of its links.
//!
//! A [`Stamps`] represents a history: the persisted timestamp low bound that it was started with, if there is one, the
//! frames tried, with their verdicts, and the timestamps given. Each of its results follows from that history alone,
//! and each call leaves one that represents the history with the call added.
//! An [`Endpoint`] receives the frames of datagrams or of a stream, and sends messages in signed frames. A frame
//! that isn't admitted changes nothing. Only the constructors, `receive` and `frames` allocate.
#![tactic(auto)]

mod admission;
mod datagrams;
mod endpoint;
mod heard;
mod keys;
pub mod laws;
mod reading;
mod signed_frames;
mod signing;
mod stamps;
mod table;

pub use admission::{Admit, StampsSpent};
pub use datagrams::Datagram;
pub use endpoint::Endpoint;
pub use heard::Heard;
pub use keys::Key;
pub use signed_frames::SignedFrame;
pub use signing::{sign, sign_bytes, verifies, verifies_raw};
pub use stamps::Stamps;
use std::alloc::AllocError;

pub type NoMemory = AllocError;
