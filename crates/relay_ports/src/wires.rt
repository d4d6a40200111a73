// The links that are open, in the order of their opening.
ghost use Rattle.std.specs.Prelude.{◌≡◌, ◌∷◌, ◌++◌, [], ◌<◌, ◌≤◌, length, slice_get, Some, IfOk, IfSome};
ghost use Rattle.std.specs.List.{remove};
ghost use Rattle.relay_hub.specs.Seats.{has_room};
ghost use Rattle.relay_ports.specs.Moves.{MovesWithin};

use mav_ports::{read_once, write_once};
use mio::event::Source;
use mio::net::TcpStream;
use mio::unix::SourceFd;
use mio::{Interest, Registry, Token};
use std::alloc::{AllocError, Global};
use std::fs::File;
use std::io;
use std::io::{ErrorKind, Read, Write};
use std::marker::Model;
use std::net::{Shutdown, SocketAddr};
use std::os::fd::AsRawFd;

/// At most so many links are open at once, and so many of one port.
pub(crate) const MOST_LINKS: usize = 32;

const MOST_OF_A_PORT: usize = 8;

/// The end of a link.
pub(crate) enum End {
    Stream(TcpStream),
    Device(File),
    /// A file that is read and one that is written.
    Files(File, File),
    /// A peer of the port's socket, by its address where it has several.
    Peer(Option<SocketAddr>),
}

// By hand, so that whoever drops it proves one call.
impl Drop for End {
    fn drop(self) {
        match self {
            End::Stream(stream) => {
                // Its peer reads the end after all that was written.
                let _ = stream.shutdown(Shutdown::Write);
            }
            End::Device(_device) => {}
            End::Files(_input, _output) => {}
            End::Peer(_) => {}
        }
    }
}

/// What a read or a write came to.
#[derive(Clone, Copy)]
pub(crate) enum Moved {
    Bytes(usize),
    /// It would have waited.
    Nothing,
    /// The other end has closed it.
    Ended,
    Failed,
}

/// An open link: its port, and the number of its slot, which no other open link has.
pub(crate) struct Wire {
    port: u8,
    slot: usize,
    end: End,
}

// By hand, so that whoever drops it proves one call.
impl Drop for Wire {
    fn drop(self) {
        let Wire {
            port: _,
            slot: _,
            end: _end,
        } = self;
    }
}

// Contracts see its port.
impl Model for Wire {
    ghost use Rattle.std.specs.Prelude.{ℕ};

    ghost Value = { ℕ };

    ghost view = { λ w. w.port };
}

// What one read gives into a buffer that isn't empty.
fn read_now<R: Read>(reader: &mut R, buf: &mut [u8]) -> Moved
    ensures { MovesWithin result (length buf.new) }
{
    match read_once(reader, buf) {
        Ok(0) => Moved::Ended,
        Ok(count) => Moved::Bytes(count),
        Err(error) if error.kind() == ErrorKind::WouldBlock => Moved::Nothing,
        Err(_) => Moved::Failed,
    }
}

// What one write takes.
fn write_now<W: Write>(writer: &mut W, bytes: &[u8]) -> Moved
    ensures { MovesWithin result (length bytes.now) }
{
    match write_once(writer, bytes) {
        Ok(count) => Moved::Bytes(count),
        Err(error) if error.kind() == ErrorKind::WouldBlock => Moved::Nothing,
        Err(_) => Moved::Failed,
    }
}

/// Has the system tell when it can be read or written.
pub(crate) fn watch<S: Source>(registry: &Registry, source: &mut S, token: Token) -> bool {
    let interest = Interest::READABLE | Interest::WRITABLE;
    registry.reregister(source, token, interest).is_ok()
        || registry.register(source, token, interest).is_ok()
}

impl End {
    /// Has the system tell when it can be read or written; false if it can't.
    pub(crate) fn watched(&mut self, registry: &Registry, token: Token) -> bool {
        match self {
            End::Stream(stream) => watch(registry, stream, token),
            End::Device(device) => {
                let number = device.as_raw_fd();
                watch(registry, &mut SourceFd(&number), token)
            }
            End::Files(_, _) | End::Peer(_) => true,
        }
    }

    // Nothing comes from a peer here, but from the port's socket.
    fn read(&self, buf: &mut [u8]) -> Moved
        ensures { MovesWithin result (length buf.new) }
    {
        match self {
            End::Stream(stream) => read_now(&mut &*stream, buf),
            End::Device(device) => read_now(&mut &*device, buf),
            End::Files(input, _) => read_now(&mut &*input, buf),
            End::Peer(_) => Moved::Nothing,
        }
    }

    fn write(&self, bytes: &[u8]) -> Moved
        ensures { MovesWithin result (length bytes.now) }
    {
        match self {
            End::Stream(stream) => write_now(&mut &*stream, bytes),
            End::Device(device) => write_now(&mut &*device, bytes),
            End::Files(_, output) => write_now(&mut &*output, bytes),
            End::Peer(_) => Moved::Nothing,
        }
    }
}

impl Wire {
    // Whether it is the link of that peer at that port.
    fn is_of(&self, port: u8, peer: SocketAddr) -> bool {
        match self.end {
            End::Peer(own) => self.port == port && own == Some(peer),
            _ => false,
        }
    }
}

/// The open links.
pub(crate) struct Wires {
    list: Vec<Wire>,
}

// By hand, so that whoever drops them proves one call.
impl Drop for Wires {
    fn drop(self) {
        let Wires { list: _list } = self;
    }
}

// Contracts see their ports.
impl Model for Wires {
    ghost use Rattle.std.specs.Prelude.{◌≤◌, ℕ, List, vec_len, vec_capacity};

    ghost Value = { List ℕ };

    ghost view = { λ w. w.list.items };

    ghost invariant = { λ w. (vec_len w.list ≤ 32) × (32 ≤ vec_capacity w.list) };
}

impl Wires {
    /// None. Allocates room for all.
    pub(crate) fn new(alloc: Global) -> Result<Wires, AllocError>
        ensures { IfOk result (λ wires. wires ≡ []) }
    {
        let list = Vec::with_capacity(alloc, MOST_LINKS)?;
        Ok(Wires { list })
    }

    pub(crate) fn len(&self) -> usize
        ensures { result ≡ length self.now }
    {
        self.list.len()
    }

    /// Whether one more link at this port is not too many.
    pub(crate) fn has_room(&self, port: u8) -> bool
        ensures { result ≡ has_room port self.now }
    {
        let same = self.list.iter().filter(|wire| wire.port == port).count();
        self.list.len() < MOST_LINKS && same < MOST_OF_A_PORT
    }

    /// A link opens, the last one.
    pub(crate) fn push(&mut self, port: u8, slot: usize, end: End)
        requires { length self.old < 32 }
        ensures { self.new ≡ self.old ++ port ∷ [] }
    {
        self.list.push_reserved(Wire { port, slot, end });
    }

    /// The link with that index closes, and its port is returned.
    pub(crate) fn remove(&mut self, index: usize) -> u8
        requires { index < length self.old }
        ensures { self.new ≡ remove self.old index }
    {
        let wire = self.list.remove(index);
        wire.port
    }

    pub(crate) fn port(&self, index: usize) -> u8
        requires { index < length self.now }
    {
        self.list[index].port
    }

    pub(crate) fn slot(&self, index: usize) -> usize
        requires { index < length self.now }
    {
        self.list[index].slot
    }

    /// A slot that no open link has.
    pub(crate) fn free_slot(&self) -> usize
        ensures { result < 32 }
    {
        for slot in 0..MOST_LINKS {
            if !self.list.iter().any(|wire| wire.slot == slot) {
                return slot;
            }
        }
        0
    }

    /// Whether it reads a file.
    pub(crate) fn is_file(&self, index: usize) -> bool
        requires { index < length self.now }
    {
        matches!(self.list[index].end, End::Files(_, _))
    }

    /// Whether it is a peer of the port's socket, and which, where the port has several.
    pub(crate) fn peer(&self, index: usize) -> Option<Option<SocketAddr>>
        requires { index < length self.now }
    {
        match self.list[index].end {
            End::Peer(peer) => Some(peer),
            _ => None,
        }
    }

    /// Whether somebody has a link at that port.
    pub(crate) fn knows(&self, port: u8, peer: SocketAddr) -> bool {
        self.list.iter().any(|wire| wire.is_of(port, peer))
    }

    pub(crate) fn read(&self, index: usize, buf: &mut [u8]) -> Moved
        requires { index < length self.now }
        ensures { MovesWithin result (length buf.new) }
    {
        self.list[index].end.read(buf)
    }

    pub(crate) fn write(&self, index: usize, bytes: &[u8]) -> Moved
        requires { index < length self.now }
        ensures { MovesWithin result (length bytes.now) }
    {
        self.list[index].end.write(bytes)
    }
}
