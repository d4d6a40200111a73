//! The command `dialect`: the layouts and CRC_EXTRA of messages, written line by line.
//!
//! [`dialect`] writes those of the definitions that an input holds, [`profile`] those of the
//! built-in profile; `specs/Spec.antt` says what stops them and what they write. The text of a
//! halt isn't written here. [`run_dialect`] does one or the other for the words of a command line.
//! [`read_definitions`] and [`known_messages`] serve each command that takes definitions.
#![tactic(auto)]

mod commands;
mod definitions;
mod dialect_asked;
mod layouts;
mod named_definitions;

pub use commands::{dialect, profile};
pub use definitions::read_definitions;
pub use dialect_asked::run_dialect;
pub use named_definitions::known_messages;
