//! What the words of a command line ask for.
//!
//! The words are read by the grammar of `specs/Grammar.antt`: a command, then its options in any
//! order, its plain words, and `--`, after which every word is plain. [`read`] returns the
//! [`Line`] that the words are, and [`at_most_one_line`] says that they are no other. The tables of
//! `commands` say which commands and options are built. Numbers, ports and the [`Operation`] of a
//! station are read once, and a line holds them as values. Nothing here opens a file.
#![tactic(auto)]

mod commands;
mod faults;
mod files;
mod forms;
mod laws;
mod lines;
mod nodes;
mod numbers;
mod operations;
mod pieces;
mod plain;
mod ports;
mod reading;

pub use commands::{Command, OptionName};
pub use faults::WantedFault;
pub use laws::at_most_one_line;
pub use lines::{Line, Setting};
pub use operations::{Operation, PlanWord, Task};
pub use ports::{Files, FilesKind, Port, Socket, SocketKind, Target};
pub use reading::read;
