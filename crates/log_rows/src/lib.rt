//! Rows of a telemetry log, as ground stations write it: 8 bytes with a time in microseconds since 1970, highest byte
//! first, and then a frame of MAVLink 2 or of MAVLink 1.
//!
//! [`put_row`] writes a [`Row`]. [`LogReader`] reads a log that comes in pieces, in 288 bytes: rows, and the bytes
//! that are in none, each with the reason. The parse of a whole log is defined in `specs/LogParse.antt`; whatever the
//! pieces, what the reader gives is that parse. [`row_span`] says what is at the start of some bytes, for readers with
//! other buffers. No call allocates or fails.
//!
//! A [`Replay`] plays a log as a link: it reads the log from the link in it, and hands out the frames of its rows
//! without the times; what is written to it goes on to that link. It waits for no time of a row.
#![tactic(auto)]

pub mod laws;
mod reader;
mod replay;
mod replay_rows;
mod rows;
mod spans;

pub use reader::{LogNext, LogReader};
pub use replay::Replay;
pub use rows::{Row, put_row, row_at};
pub use spans::{RowSpan, row_span};
