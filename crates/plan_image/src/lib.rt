//! The stored image of a drone: its three plans and its persisted timestamp low bound as bytes.
//!
//! `write_image` gives the image of any plans that a drone may hold, and `read_kept` accepts exactly the images, of
//! which each is that of one low bound and three plans alone. Nothing here opens a store or decides what is kept.
#![tactic(auto)]

mod faults;
mod kept;
mod laws;
mod reading;
mod writing;

pub use faults::KeptFault;
pub use kept::Kept;
pub use laws::{every_length, every_reading};
pub use reading::read_kept;
use std::alloc::AllocError;
pub use writing::{PlanItems, write_image};

pub type NoMemory = AllocError;
