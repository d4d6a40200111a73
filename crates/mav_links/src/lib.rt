//! Links: a source and a sink in one, which a router, a drone or a station uses boxed.
//!
//! A [`Link`] promises what its two halves do, with one count of faults; [`write_prefix`] and [`write_link`] write all
//! of some bytes, or stop at the first write that fails. [`MemLink`] is over memory and exact; [`FileLink`],
//! [`TcpLink`] and [`UdpLink`] wrap files and sockets and promise nothing of what these hold. A `UdpLink` sends each
//! frame in a datagram of its own, though many are written together.
//!
//! Sockets don't block: a [`WaitingStream`], over a [`Connection`], and a [`PeerSocket`] wait with a [`Watch`] until
//! their socket has bytes or room, until Idle is due by their [`Pace`], or until their [`Bell`] rings, which says that
//! something waits to be written. Nothing here allocates but the constructors.
#![tactic(auto)]

mod backlog;
mod bells;
mod boxed;
mod connection;
mod datagrams;
mod file_link;
mod links;
mod mem_link;
mod pace;
mod peer;
mod tallies;
mod tcp_link;
mod udp_link;
mod waiting_stream;
mod waits;
mod watch;
mod writing;

pub use bells::Bell;
pub use connection::Connection;
pub use datagrams::datagram_size;
pub use file_link::FileLink;
pub use links::Link;
pub use mem_link::MemLink;
pub use pace::{Beat, Pace};
pub use peer::{Peer, PeerSocket};
use std::alloc::AllocError;
pub use tcp_link::TcpLink;
pub use udp_link::UdpLink;
pub use waiting_stream::WaitingStream;
pub use waits::Waits;
pub use watch::Watch;
pub use writing::{write_link, write_prefix};

/// There was no memory.
pub type NoMemory = AllocError;
