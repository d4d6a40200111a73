//! Nodes of either kind, drones and stations: what they do at a call, and what a report says of their news.
//!
//! [`report_piece`] adds what a report says of one piece of a node's news. What contracts of a world and of a live
//! node say of a node is here too (`specs/Nodes.antt`, `Calls.antt`, `ParamLists.antt`). Nothing here keeps a node or
//! calls one.
#![tactic(auto)]

mod pieces;

pub use pieces::report_piece;
use std::alloc::AllocError;

/// There was no memory.
pub type NoMemory = AllocError;
