// A UDP socket, with the datagram that it received last.
ghost use Rattle.std.specs.Prelude.{◌≡◌, ◌<◌, ◌≤◌, length, vec_len, IfOk};

use mav_links::datagram_size;
use mio::net::UdpSocket;
use std::alloc::{AllocError, Global};
use std::io;
use std::io::ErrorKind;
use std::net::SocketAddr;

// As many bytes as a datagram can have.
const MOST_BYTES: usize = 65_536;

// So many datagrams without a byte, or answers of the network, are passed over in one look.
const MOST_PASSED: u32 = 1_000;

// The network may answer an earlier datagram in place of sending one.
const MOST_SENDS: u32 = 2;

/// The bytes of a datagram that weren't read yet, with its sender.
#[derive(Drop)]
pub(crate) struct Letter {
    bytes: Vec<u8>,
    start: usize,
    end: usize,
    from: Option<SocketAddr>,
    ghost order: { start ≤ end },
    ghost within: { end ≤ length bytes.items },
}

fn receive_into(socket: &UdpSocket, buf: &mut [u8]) -> io::Result<(usize, SocketAddr)>
    ensures { IfOk result (λ received. received.0 ≤ length buf.new) }
{
    let (count, from) = socket.recv_from(buf)?;
    Ok((count, from))
}

impl Letter {
    /// None. Allocates room for one.
    pub(crate) fn new(alloc: Global) -> Result<Letter, AllocError> {
        let bytes = vec![in alloc; 0; MOST_BYTES]?;
        Ok(Letter {
            bytes,
            start: 0,
            end: 0,
            from: None,
        })
    }

    /// Whether bytes are left.
    pub(crate) fn is_there(&self) -> bool {
        self.start < self.end
    }

    /// Who sent the last one.
    pub(crate) fn sender(&self) -> Option<SocketAddr> {
        self.from
    }

    pub(crate) fn is_from(&self, peer: SocketAddr) -> bool {
        self.from == Some(peer)
    }

    /// Gives what is left, as much as there is room for.
    pub(crate) fn give(&mut self, buf: &mut [u8]) -> usize
        ensures { result ≤ length buf.new }
    {
        let count = (self.end - self.start).min(buf.len());
        buf[..count].copy_from_slice(&self.bytes[self.start..self.start + count]);
        self.start += count;
        count
    }

    /// What is left is dropped.
    pub(crate) fn forget(&mut self) {
        self.start = 0;
        self.end = 0;
    }

    // Receives one, without waiting; what was left is dropped.
    fn receive(&mut self, socket: &UdpSocket) -> io::Result<usize> {
        self.forget();
        let (count, from) = receive_into(socket, &mut self.bytes)?;
        self.start = 0;
        self.end = count;
        if count > 0 {
            self.from = Some(from);
        }
        Ok(count)
    }

    /// Whether bytes are left, or else of a datagram that is there already. What the network answers is no fault.
    pub(crate) fn look(&mut self, socket: &UdpSocket) -> bool {
        if self.is_there() {
            return true;
        }
        for _passed in 0..MOST_PASSED {
            match self.receive(socket) {
                Ok(count) if count > 0 => return true,
                Err(error) if error.kind() == ErrorKind::WouldBlock => return false,
                _ => {}
            }
        }
        false
    }
}

fn send_once(socket: &UdpSocket, bytes: &[u8], to: Option<SocketAddr>) -> io::Result<usize> {
    match to {
        Some(peer) => socket.send_to(bytes, peer),
        None => socket.send(bytes),
    }
}

/// Sends the first frame in one datagram, to this peer or to the one that the socket is connected to, and returns how
/// many bytes were taken: none if the system has no room now. What the network answers is no fault: the bytes are
/// lost, as on a radio.
pub(crate) fn send(socket: &UdpSocket, bytes: &[u8], to: Option<SocketAddr>) -> usize
    requires { 0 < length bytes.now }
    ensures { result ≤ length bytes.now }
{
    let size = datagram_size(bytes);
    for _send in 0..MOST_SENDS {
        match send_once(socket, &bytes[..size], to) {
            Ok(_) => return size,
            Err(error) if error.kind() == ErrorKind::WouldBlock => return 0,
            Err(_) => {}
        }
    }
    size
}
