// A UDP socket and its peer.
ghost use Rattle.std.specs.Prelude.{◌≤◌, length, IfOk, IfSome};

use crate::waiting_stream::MOST_LOOKS;
use crate::watch::would_wait;
use crate::{Bell, Pace, Watch};
use mio::net::UdpSocket;
use std::net::SocketAddr;
use std::sync::Arc;
use std::time::Clock;
use std::{io, net};

// So many datagrams without a byte, or answers of the network, are passed over in one look.
const MOST_PASSED: u32 = 1_000;

// The network may answer an earlier datagram in place of sending one.
const MOST_SENDS: u32 = 2;

/// Whom a socket hears, and whom it sends to.
#[derive(Clone, Copy)]
pub enum Peer {
    /// The one that the socket is connected to.
    Fixed,
    /// It hears everyone, and sends to the latest sender of a byte, if there was one.
    Latest(Option<SocketAddr>),
}

/// A UDP socket. What the network answers a datagram is no fault: a read goes on waiting, and what was sent is lost,
/// as on a radio. A datagram without a byte is nothing.
#[derive(Drop)]
pub struct PeerSocket<C: Clock + Drop> {
    socket: UdpSocket,
    peer: Peer,
    watch: Watch,
    pace: Pace<C>,
}

impl<C: Clock + Drop> PeerSocket<C> {
    pub fn new(
        socket: net::UdpSocket,
        peer: Peer,
        watch: Watch,
        pace: Pace<C>,
    ) -> io::Result<PeerSocket<C>> {
        socket.set_nonblocking(true)?;
        let mut watch = watch;
        let mut socket = UdpSocket::from_std(socket);
        watch.add(&mut socket)?;
        Ok(PeerSocket {
            socket,
            peer,
            watch,
            pace,
        })
    }

    // Receives a datagram, without waiting.
    fn receive_once(&mut self, datagram: &mut [u8]) -> io::Result<usize>
        ensures { IfOk result (λ count. count ≤ length datagram.new) }
    {
        if let Peer::Fixed = self.peer {
            return self.socket.recv(datagram);
        }
        let (count, from) = self.socket.recv_from(datagram)?;
        if count > 0 {
            self.peer = Peer::Latest(Some(from));
        }
        Ok(count)
    }

    /// How many bytes the next datagram has that is there already, if one is.
    pub(crate) fn look(&mut self, datagram: &mut [u8]) -> Option<usize>
        ensures { IfSome result (λ count. count ≤ length datagram.new) }
    {
        for _passed in 0..MOST_PASSED {
            let call = self.receive_once(datagram);
            if would_wait(&call) {
                return None;
            }
            match call {
                Ok(count) if count > 0 => {
                    self.pace.came();
                    return Some(count);
                }
                _ => {}
            }
        }
        None
    }

    /// How many bytes the next datagram has; none if Idle is due first.
    pub(crate) fn receive(&mut self, datagram: &mut [u8]) -> Option<usize>
        ensures { IfSome result (λ count. count ≤ length datagram.new) }
    {
        for _look in 0..MOST_LOOKS {
            let left = self.pace.left();
            if left.is_zero() && self.pace.is_steady() {
                break;
            }
            if let Some(count) = self.look(datagram) {
                return Some(count);
            }
            if left.is_zero() {
                break;
            }
            self.watch.wait(left);
        }
        self.pace.idled();
        None
    }

    // Sends a datagram to the peer, without waiting.
    fn send_once(&self, bytes: &[u8]) -> io::Result<usize> {
        match self.peer {
            Peer::Fixed => self.socket.send(bytes),
            Peer::Latest(Some(peer)) => self.socket.send_to(bytes, peer),
            Peer::Latest(None) => Ok(0),
        }
    }

    // Waits until the system has room for a datagram, at most so long as a peer may leave a write untaken.
    fn send_waiting(&mut self, bytes: &[u8]) -> io::Result<usize> {
        let since = self.pace.now();
        for _look in 0..MOST_LOOKS {
            let call = self.send_once(bytes);
            let left = self.pace.left_to_write(since);
            if !would_wait(&call) || left.is_zero() {
                return call;
            }
            self.watch.wait(left);
        }
        Ok(0)
    }

    /// Sends a datagram to the peer, if there is one.
    pub(crate) fn send(&mut self, bytes: &[u8]) {
        for _send in 0..MOST_SENDS {
            if self.send_waiting(bytes).is_ok() {
                return;
            }
        }
    }

    /// Whether somebody is there to send to.
    pub(crate) fn has_peer(&self) -> bool {
        !matches!(self.peer, Peer::Latest(None))
    }

    /// Whether Idle is due. If it isn't, the next ring of the bell ends the next rest.
    pub(crate) fn is_due(&mut self) -> bool {
        if self.pace.left().is_zero() {
            return true;
        }
        self.watch.expect_bell();
        false
    }

    pub(crate) fn rest(&mut self) {
        self.watch.rest(self.pace.left_to_rest());
    }

    pub(crate) fn bell(&self) -> Option<Arc<Bell>> {
        self.watch.bell()
    }

    pub(crate) fn wakes(&mut self, bell: Arc<Bell>) {
        bell.hears(&mut self.socket);
        self.watch.wakes(bell);
    }
}
