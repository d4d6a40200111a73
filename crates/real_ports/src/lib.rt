//! What words name, opened: its ports and its store.
//!
//! [`open_link`] makes a port that is opened at its first call, in the thread that makes it, and [`open_store`] opens
//! a store. Each of them is one enum by value over what it may be, which its caller boxes. What can't be opened fails
//! at each call. Files and sockets are the system's: nothing is promised of what they hold.
#![tactic(auto)]

mod files;
mod links;
mod opening;
mod sockets;
mod stores;
mod waits;

pub use links::RealLink;
pub use opening::{Opening, open_link};
use std::alloc::AllocError;
pub use stores::{RealStore, open_store};
pub use waits::beat_of;

/// There was no memory.
pub type NoMemory = AllocError;
