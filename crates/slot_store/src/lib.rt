//! A store of plans over a disk, which survives a crash at any moment.
//!
//! A [`Disk`] says what a read returns, and what a crash may leave. [`SlotKeeper`] keeps its contents in one of two
//! slots and writes the other: a crash inside a save leaves the contents before it or those saved. [`MemDisk`] is
//! exact, fails at chosen calls and crashes on demand; [`FileDisk`] wraps a file and promises nothing of what the file
//! holds, and
//! [`FileStore`] is the store over one.
#![tactic(auto)]

mod disks;
mod file_disk;
mod file_store;
mod headers;
mod keeper;
mod mem_disk;
mod reading;
mod unsynced;
mod writing;

pub use disks::{Disk, DiskFault};
pub use file_disk::FileDisk;
pub use file_store::FileStore;
pub use keeper::{SlotFault, SlotKeeper, SlotWhy};
pub use mem_disk::MemDisk;
use std::alloc::AllocError;

/// There was no memory.
pub type NoMemory = AllocError;
