//! A relay over the ports of a hub.
//!
//! [`round`] waits, has the `Relay` of relay_core follow what happened at the `Hub` of relay_hub, gives it the bytes
//! that came, and writes what waits for its links. A `Watcher` is told of all that happens, in its order. Each call
//! leads from a run of the relay to the next one: its history is that of the hub's links and of all their bytes, where
//! the hub tells them.
#![tactic(auto)]

mod closing;
mod following;
mod opening;
mod reading;
mod rounds;
mod stops;
mod strangers;
mod writing;

pub use rounds::round;
pub use stops::Stop;
