//! Stores of a drone's plans, which survive a restart.
//!
//! A [`Keeper`] loads its contents and replaces them: a save that failed leaves the old ones or
//! the new ones, and [`save_or_load`] finds out which by a load. [`MemKeeper`] is exact, for tests
//! and scenarios. What the bytes mean is up to the caller.
#![tactic(auto)]

mod fail_keeper;
mod handed;
mod keepers;
mod mem_keeper;
mod saves;

pub use fail_keeper::FailKeeper;
pub use handed::Handed;
pub use keepers::{KeepFault, Keeper, MAX_SAVED_BYTES};
pub use mem_keeper::MemKeeper;
pub use saves::{Stored, save_or_load};
use std::alloc::AllocError;

/// There was no memory.
pub type NoMemory = AllocError;
