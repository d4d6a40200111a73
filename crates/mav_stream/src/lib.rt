//! Readers of MAVLink streams that come in pieces.
//!
//! [`Reader`] takes bytes by `feed`, holds 280 of them, and its `next` gives one event at a time: a frame, or a
//! skipped byte and why no frame begins there. [`Scanner`] takes them by `feed` too and holds a large piece; its
//! `next_span` says what is at the start of the bytes held: a frame, which isn't copied, or how many bytes are skipped
//! one by one and why.
//! [`PieceReader`] takes none: its `scan` gives a [`Scan`], which says the same of bytes where their read put them,
//! and it keeps only the part of a frame with which these end, which goes before the next ones. The events of all
//! three are those of the whole stream's parse as `mav_frame` defines it, whatever the pieces: of the incremental
//! parse until `end`, and then of the final parse. Only `Scanner::new` and `PieceReader::new` allocate, and no other
//! call fails.
#![tactic(auto)]

pub mod laws;
mod pieces;
mod reader;
mod scan;
mod scanner;
mod skips;
mod spans;
mod table;
mod window;

use mav_frame::{Frame, Why};
pub use pieces::{MOST_HELD, PieceReader};
pub use reader::Reader;
pub use scan::Scan;
pub use scanner::Scanner;
pub use spans::NextSpan;
use std::alloc::AllocError;
pub use window::Window;

/// There was no memory.
pub type NoMemory = AllocError;

/// A frame, a skipped byte and why no frame begins there, or the need for more bytes.
#[derive(Clone, Copy)]
pub enum Next {
    Frame(Frame),
    Skipped(u8, Why),
    Need,
}
