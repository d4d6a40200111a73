//! The checksum of MAVLink packets, CRC-16/MCRF4XX, and the table of the CRC_EXTRA bytes that seed it by message id.
//!
//! `X25` is proved equal to the checksum as it is defined bit by bit. `Extras` finds the CRC_EXTRA of a message id.
//! Nothing here allocates but `Extras::copy`, and nothing can fail but for want of memory there.
#![tactic(auto)]

mod check;
mod extras;
mod tables;

pub use check::X25;
pub use extras::Extras;
use std::alloc::AllocError;

pub type NoMemory = AllocError;
