// A port of a relay, open or not.
ghost use Rattle.std.specs.Prelude.{◌<◌, ◌≤◌, length};

use crate::addresses::Addresses;
use crate::datagrams::{Letter, send};
use crate::files::{open_device, open_files};
use crate::sockets::{bind, connect, connect_datagrams, is_made, listen};
use crate::wires::{End, watch};
use crate::{Socket, SocketKind, Target};
use mio::net::{TcpListener, TcpStream, UdpSocket};
use mio::{Registry, Token};
use std::alloc::{AllocError, Global};
use std::io::ErrorKind;
use std::net::SocketAddr;
use std::time::Duration;
use std::{io, mem};

// After so many seconds what closed, or couldn't be opened, is opened anew.
const PAUSE: u64 = 1;

// A connection that isn't made after so many seconds is given up.
const MOST_TO_CONNECT: u64 = 5;

/// What a port is now.
#[derive(Drop)]
pub(crate) enum Door {
    /// It is to be opened.
    Shut,
    /// Its one link is open.
    Linked,
    Listening(TcpListener),
    Connecting(TcpStream),
    Datagrams(UdpSocket),
}

/// What happens at a port.
#[derive(Drop)]
pub(crate) enum Step {
    Nothing,
    /// It couldn't be opened.
    Waits,
    /// A link opens, if there is room.
    Link(End),
    /// One was too many.
    TooMany,
}

/// What a port's step needs: its token, whether one more link of it is not too many, and the time.
#[derive(Clone, Copy)]
pub(crate) struct Place {
    pub(crate) token: Token,
    pub(crate) has_room: bool,
    pub(crate) now: Duration,
}

/// A port. Where it is shut it is to be opened when `due`, and a connection that was begun is given up then.
pub(crate) struct Port {
    pub(crate) target: Target,
    pub(crate) door: Door,
    pub(crate) addresses: Addresses,
    pub(crate) letter: Letter,
    pub(crate) due: Duration,
    /// Something may have come.
    pub(crate) is_ready: bool,
    /// That it couldn't be opened was told.
    pub(crate) is_waiting: bool,
    /// A stranger was one too many, which is to be told.
    pub(crate) refuses: bool,
    /// That was told since there was room last.
    pub(crate) is_full: bool,
}

// By hand, so that whoever drops it proves one call.
impl Drop for Port {
    fn drop(self) {
        let Port {
            target: _target,
            door: _door,
            addresses: _addresses,
            letter: _letter,
            due: _,
            is_ready: _,
            is_waiting: _,
            refuses: _,
            is_full: _,
        } = self;
    }
}

fn linked(end: End) -> (Door, Option<End>) {
    (Door::Linked, Some(end))
}

// A socket's door, and its link, if it has one from the start.
fn open_socket(
    rt: &HostRuntime,
    socket: &Socket,
    addresses: &mut Addresses,
) -> io::Result<(Door, Option<End>)> {
    addresses.look_up(rt, socket);
    match socket.kind {
        SocketKind::Tcp => Ok((Door::Connecting(connect(rt, addresses)?), None)),
        SocketKind::Listen | SocketKind::TcpServer => {
            Ok((Door::Listening(listen(rt, addresses)?), None))
        }
        SocketKind::Udp => Ok((
            Door::Datagrams(connect_datagrams(rt, addresses)?),
            Some(End::Peer(None)),
        )),
        SocketKind::UdpListen => {
            Ok((Door::Datagrams(bind(rt, addresses)?), Some(End::Peer(None))))
        }
        SocketKind::UdpServer => Ok((Door::Datagrams(bind(rt, addresses)?), None)),
    }
}

impl Port {
    /// Shut, and to be opened at once. Allocates all its memory.
    pub(crate) fn new(alloc: Global, target: Target) -> Result<Port, AllocError> {
        let addresses = Addresses::new(alloc)?;
        let letter = Letter::new(alloc)?;
        Ok(Port {
            target,
            door: Door::Shut,
            addresses,
            letter,
            due: Duration::ZERO,
            is_ready: true,
            is_waiting: false,
            refuses: false,
            is_full: false,
        })
    }

    // The kind of its socket, if it is one.
    fn kind(&self) -> Option<SocketKind> {
        match &self.target {
            Target::Socket(socket) => Some(socket.kind),
            _ => None,
        }
    }

    /// Whether links come and go while it stays open.
    pub(crate) fn takes_many(&self) -> bool {
        matches!(
            self.kind(),
            Some(SocketKind::TcpServer | SocketKind::UdpServer)
        )
    }

    pub(crate) fn has_peers(&self) -> bool {
        matches!(self.kind(), Some(SocketKind::UdpServer))
    }

    /// Whether its link is there once it is open.
    pub(crate) fn links_at_once(&self) -> bool {
        match self.kind() {
            Some(SocketKind::Udp | SocketKind::UdpListen) | None => true,
            Some(_) => false,
        }
    }

    // Opens it, with its link, if it has one from the start.
    fn open(&mut self, rt: &HostRuntime) -> io::Result<Option<End>> {
        let (door, end) = match &self.target {
            Target::Socket(socket) => open_socket(rt, socket, &mut self.addresses)?,
            Target::Device(name) => linked(End::Device(open_device(rt, name.as_str())?)),
            Target::Files(files) => {
                let (input, output) = open_files(rt, files)?;
                linked(End::Files(input, output))
            }
        };
        self.turn(door);
        Ok(end)
    }

    // Its door is this one from now on.
    fn turn(&mut self, door: Door) {
        self.door = door;
        self.is_ready = true;
    }

    // Has the system tell what comes at its socket.
    fn watch(&mut self, registry: &Registry, token: Token) -> bool {
        match &mut self.door {
            Door::Shut | Door::Linked => true,
            Door::Listening(listener) => watch(registry, listener, token),
            Door::Connecting(stream) => watch(registry, stream, token),
            Door::Datagrams(socket) => watch(registry, socket, token),
        }
    }

    // It is shut, and opened anew after a while.
    fn shut(&mut self, now: Duration) {
        self.turn(Door::Shut);
        self.due = now.saturating_add(Duration::from_secs(PAUSE));
    }

    // It couldn't be opened, which is told once.
    fn fail(&mut self, now: Duration) -> Step {
        self.shut(now);
        if mem::replace(&mut self.is_waiting, true) {
            Step::Nothing
        } else {
            Step::Waits
        }
    }

    // Opens it, if it is time.
    fn open_now(&mut self, rt: &HostRuntime, registry: &Registry, place: Place) -> Step {
        if place.now < self.due {
            return Step::Nothing;
        }
        if self.links_at_once() && !place.has_room {
            self.shut(place.now);
            return Step::TooMany;
        }
        let Ok(end) = self.open(rt) else {
            return self.fail(place.now);
        };
        if !self.watch(registry, place.token) {
            return self.fail(place.now);
        }
        self.opened(place.now, end)
    }

    // It is open, or a connection was begun.
    fn opened(&mut self, now: Duration, end: Option<End>) -> Step {
        if let Door::Connecting(_) = self.door {
            self.due = now.saturating_add(Duration::from_secs(MOST_TO_CONNECT));
        } else {
            self.is_waiting = false;
        }
        match end {
            Some(end) => Step::Link(end),
            None => Step::Nothing,
        }
    }

    // Takes a client, if one has come.
    fn accept(&mut self, now: Duration) -> Step {
        let Door::Listening(listener) = &self.door else {
            return Step::Nothing;
        };
        if !self.is_ready && now < self.due {
            return Step::Nothing;
        }
        let Ok((stream, _)) = listener.accept() else {
            self.is_ready = false;
            self.due = now.saturating_add(Duration::from_secs(PAUSE));
            return Step::Nothing;
        };
        let _ = stream.set_nodelay(true);
        if !self.takes_many() {
            self.turn(Door::Linked);
        }
        Step::Link(End::Stream(stream))
    }

    // The connection that was begun is its link.
    fn connected(&mut self) -> Step {
        self.is_waiting = false;
        match mem::replace(&mut self.door, Door::Linked) {
            Door::Connecting(stream) => Step::Link(End::Stream(stream)),
            _ => Step::Nothing,
        }
    }

    // Begins to connect to the next address.
    fn connect_next(&mut self, rt: &HostRuntime, registry: &Registry, place: Place) -> Step {
        let Ok(stream) = connect(rt, &mut self.addresses) else {
            return self.fail(place.now);
        };
        self.turn(Door::Connecting(stream));
        if !self.watch(registry, place.token) {
            return self.fail(place.now);
        }
        self.opened(place.now, None)
    }

    // Looks what became of the connection that was begun.
    fn connect_now(&mut self, rt: &HostRuntime, registry: &Registry, place: Place) -> Step {
        let Door::Connecting(stream) = &self.door else {
            return Step::Nothing;
        };
        let is_late = place.now >= self.due;
        if !self.is_ready && !is_late {
            return Step::Nothing;
        }
        self.is_ready = false;
        match is_made(stream) {
            Some(true) => self.connected(),
            None if !is_late => Step::Nothing,
            _ => self.connect_next(rt, registry, place),
        }
    }

    // Tells once that strangers are too many.
    fn refusal(&mut self, has_room: bool) -> Step {
        let refuses = mem::replace(&mut self.refuses, false);
        if has_room {
            self.is_full = false;
        }
        if has_room || !refuses || mem::replace(&mut self.is_full, true) {
            Step::Nothing
        } else {
            Step::TooMany
        }
    }

    /// What happens there next.
    pub(crate) fn step(&mut self, rt: &HostRuntime, registry: &Registry, place: Place) -> Step {
        match &self.door {
            Door::Shut => self.open_now(rt, registry, place),
            Door::Linked => Step::Nothing,
            Door::Listening(_) => self.accept(place.now),
            Door::Connecting(_) => self.connect_now(rt, registry, place),
            Door::Datagrams(_) => self.refusal(place.has_room),
        }
    }

    /// A link of it closed. Files aren't opened anew, since that would empty one.
    pub(crate) fn released(&mut self, now: Duration) {
        let is_files = matches!(self.target, Target::Files(_));
        if !is_files && matches!(self.door, Door::Linked) {
            self.shut(now);
        }
    }

    /// Whether something may be there at its socket.
    pub(crate) fn is_busy(&self) -> bool {
        match &self.door {
            Door::Shut | Door::Linked => false,
            Door::Listening(_) | Door::Connecting(_) => self.is_ready,
            Door::Datagrams(_) => self.is_ready || self.letter.is_there(),
        }
    }

    // Whether bytes of a datagram are there.
    fn look(&mut self) -> bool {
        let Door::Datagrams(socket) = &self.door else {
            return false;
        };
        if !self.is_ready && !self.letter.is_there() {
            return false;
        }
        let is_there = self.letter.look(socket);
        self.is_ready = is_there;
        is_there
    }

    /// Bytes of a datagram of this peer, or of any, if they are there.
    pub(crate) fn receive(&mut self, peer: Option<SocketAddr>, buf: &mut [u8]) -> usize
        ensures { result ≤ length buf.new }
    {
        if !self.look() {
            return 0;
        }
        match peer {
            Some(peer) if !self.letter.is_from(peer) => 0,
            _ => self.letter.give(buf),
        }
    }

    /// Who sent the datagram that is there, if one is and the port has peers.
    pub(crate) fn asker(&mut self) -> Option<SocketAddr> {
        if self.has_peers() && self.look() {
            self.letter.sender()
        } else {
            None
        }
    }

    /// Takes the datagram that is there, as much of it as there is room for.
    pub(crate) fn take_letter(&mut self, buf: &mut [u8]) -> usize
        ensures { result ≤ length buf.new }
    {
        let count = self.letter.give(buf);
        self.letter.forget();
        count
    }

    /// How many of these bytes are sent to this peer, or to the one that the port has. Where that is the latest
    /// sender, and nobody has sent anything, they are lost.
    pub(crate) fn send(&self, peer: Option<SocketAddr>, bytes: &[u8]) -> usize
        requires { 0 < length bytes.now }
        ensures { result ≤ length bytes.now }
    {
        let Door::Datagrams(socket) = &self.door else {
            return 0;
        };
        if let Some(SocketKind::Udp) = self.kind() {
            return send(socket, bytes, None);
        }
        match peer.or(self.letter.sender()) {
            Some(to) => send(socket, bytes, Some(to)),
            None => bytes.len(),
        }
    }
}
