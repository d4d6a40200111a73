//! The command `decode`: every frame of a stream as a line of text, and every byte that is in none. Frames of MAVLink
//! 2 and of MAVLink 1 are read.
//!
//! A [`Teller`] makes a text of the bytes of an input as they come; [`run_teller`] reads the input in pieces of 64 KiB
//! and writes what is told of a piece before more is read, in constant memory. [`decode_by`] runs the teller of
//! `decode`, which knows the messages of a dialect, and with a key reports a signed frame as good or bad.
//! `specs/Spec.antt` says what stops a run and what it writes. The text of a halt isn't written here. [`run_decode`]
//! decodes for the words of a command line, with the key and the definitions that these name.
#![tactic(auto)]

mod commands;
mod context;
mod counts;
mod decode_asked;
mod decoder;
pub mod laws;
mod prepared;
mod running;
mod tellers;

pub use commands::decode_by;
pub use context::DecodeContext;
pub use counts::put_counts;
pub use decode_asked::run_decode;
pub use decoder::scanner_of;
pub use running::run_teller;
pub use tellers::Teller;
