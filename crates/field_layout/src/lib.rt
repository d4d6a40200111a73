//! Message definitions and their layout on the wire: field order, offsets, CRC_EXTRA, packing and unpacking.
//!
//! A `Layout` is made from a `MessageDef` and is determined by it. `pack` and `unpack` turn a list of raw words for
//! each field into the truncated payload and back, without loss. Nothing here reads or sends a packet.
#![tactic(auto)]

mod buffer;
mod faults;
mod fields;
mod label;
mod laws;
mod layout;
mod order;
mod packing;
mod target;
mod ty;
mod unpacking;
mod values;

pub use buffer::Buffer;
pub use faults::LayoutFault;
pub use fields::{Field, MessageDef};
pub use label::Label;
pub use laws::{packed_values_come_back, payload_has_one_meaning};
pub use layout::Layout;
pub use packing::pack;
use std::alloc::AllocError;
pub use ty::Ty;
pub use unpacking::unpack;
pub use values::Values;

pub type NoMemory = AllocError;
