//! Which nodes are behind which port of a router, and which ports a message goes to.
//!
//! A [`LinkTable`] represents the list of the nodes learned, each at its port; [`LinkTable::ways`] follows from that
//! list alone. [`Ways`] is a set of the ports 1 to 8.
//!
//! An [`OpenTable`] is such a table for links that open and close, of which at most 32 are open at once: what was
//! learned of a link goes with it. Only [`LinkTable::new`] and [`OpenTable::new`] allocate.
#![tactic(auto)]

mod link_set;
mod open_table;
mod table;
mod ways;

pub use link_set::LinkSet;
pub use open_table::OpenTable;
use std::alloc::AllocError;
pub use table::LinkTable;
pub use ways::Ways;

/// There was no memory.
pub type NoMemory = AllocError;
