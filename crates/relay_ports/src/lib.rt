//! The ports of a relay over the system: one hub over TCP, UDP, character devices and files.
//!
//! [`RelayPorts`] opens its ports at its first calls, and those that closed or couldn't be opened again after a
//! second. No call but `wait` waits, except where the system leaves no choice: the lookup of a host that is no
//! address, and the opening of a device whose driver waits for a carrier. Nothing allocates but `new` and the lookup's
//! own. It tells no bytes; each index, count and limit is proved.
#![tactic(auto)]

mod addresses;
mod datagrams;
mod doors;
mod files;
mod relay_ports;
mod slots;
mod sockets;
mod system;
mod targets;
mod wires;

pub use relay_ports::RelayPorts;
pub use targets::{Files, Socket, SocketKind, Target};
