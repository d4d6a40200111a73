//! The command `route`.
//!
//! [`route`] runs a router between links, and writes a line for each frame that came in and one for each port. The
//! router is [`Threaded`], with a thread for each link or with one, or [`SingleThread`], which starts none. The
//! contract says, by one record over what [`Router::route_ports`] promises, what was read from each port and written
//! to it, what was written of that to the output, and why the run ends: a port that hadn't ended after as many reads
//! as it may have, more frames than a journal holds, a refused write, or want of memory. A port that fails ends no
//! run. The text is written 64 KiB at a time, and is never whole in memory. [`run_route`] does so for the words of a
//! command line, with the key and the definitions that these name.
#![tactic(auto)]

mod commands;
mod entry_lines;
mod named;
mod port_lines;
mod port_texts;
mod route_asked;
mod routers;

pub use commands::route;
pub use route_asked::run_route;
pub use routers::{Router, SingleThread, Threaded};
