// The system's part of the hub: the ports, and what waits for all of them.
ghost use Rattle.std.specs.Prelude.{◌≡◌, ◌∷◌, ◌++◌, [], ◌<◌, ◌≤◌, ℕ, length, true, IfOk, IfSome};
ghost use Rattle.std.specs.List.{remove};
ghost use Rattle.relay_hub.specs.Seats.{IsNews, has_room, ports_told};
ghost use Rattle.relay_ports.specs.Moves.{MovesWithin};

use crate::Target;
use crate::doors::{Place, Port, Step};
use crate::slots::Slots;
use crate::wires::{End, MOST_LINKS, Moved, Wires};
use mio::{Events, Poll, Token};
use relay_hub::{HubNews, Stranger, Why};
use std::io;
use std::net::SocketAddr;
use std::time::{Clock, Duration};

const MOST_PORTS: usize = 8;

// One wait is told of so many sources at most.
const MOST_EVENTS: usize = 64;

// A peer that is silent for so many seconds is no link any more.
const MOST_SILENT: u64 = 60;

/// Ports, the system's wait for all of them, and what is known of each open link beside its end.
pub(crate) struct System {
    rt: HostRuntime,
    poll: Poll,
    events: Events,
    ports: Vec<Port>,
    slots: Slots,
    now: Duration,
}

// By hand, so that whoever drops it proves one call.
impl Drop for System {
    fn drop(self) {
        let System {
            rt: _rt,
            poll: _poll,
            events: _events,
            ports: _ports,
            slots: _slots,
            now: _,
        } = self;
    }
}

// The ports, shut.
fn ports_of(rt: &HostRuntime, targets: Vec<Target>) -> io::Result<Vec<Port>> {
    let mut ports = Vec::with_capacity(rt.alloc(), MOST_PORTS)?;
    for target in targets {
        let port = Port::new(rt.alloc(), target)?;
        ports.push(port)?;
    }
    Ok(ports)
}

// Where the port with that number stands.
fn index_of(number: u8) -> usize {
    usize::from(number).saturating_sub(1)
}

// Something may have come at a port or at a link.
fn wake(ports: &mut [Port], slots: &mut Slots, token: usize) {
    if token >= MOST_PORTS {
        slots.wake(token - MOST_PORTS);
    } else if let Some(port) = ports.get_mut(token) {
        port.is_ready = true;
    }
}

fn wake_all(events: &Events, ports: &mut [Port], slots: &mut Slots) {
    for event in events {
        wake(ports, slots, event.token().0);
    }
}

impl System {
    /// All ports are shut. Allocates all its memory.
    pub(crate) fn new(rt: &HostRuntime, targets: Vec<Target>) -> io::Result<System> {
        let poll = Poll::new(rt)?;
        let events = Events::with_capacity(rt.alloc(), MOST_EVENTS)?;
        let slots = Slots::new(rt.alloc(), MOST_LINKS)?;
        let ports = ports_of(rt, targets)?;
        Ok(System {
            rt: *rt,
            poll,
            events,
            ports,
            slots,
            now: Duration::ZERO,
        })
    }

    // Looks at the clock; if it tells no time, the time stays.
    fn tick(&mut self) {
        self.now = self.rt.monotonic().unwrap_or(self.now);
    }

    // Whether something may be there at a port or a link, or is to be told.
    fn is_busy(&self, wires: &Wires) -> bool {
        for index in 0..wires.len() {
            let slot = wires.slot(index);
            if self.slots.is_ready(slot) || self.slots.ended(slot).is_some() {
                return true;
            }
        }
        self.ports.iter().any(|port| port.is_busy())
    }

    /// Waits until something comes, at most so long.
    pub(crate) fn wait(&mut self, wires: &Wires, most: Duration) {
        let most = if self.is_busy(wires) {
            Duration::ZERO
        } else {
            most
        };
        let _ = self.poll.poll(&mut self.events, Some(most));
        wake_all(&self.events, &mut self.ports, &mut self.slots);
        self.wake_files(wires);
    }

    // The system tells nothing of files.
    fn wake_files(&mut self, wires: &Wires) {
        for index in 0..wires.len() {
            if wires.is_file(index) {
                self.slots.wake(wires.slot(index));
            }
        }
    }

    // Why a link is over, if it is.
    fn why_over(&self, wires: &Wires, index: usize) -> Option<Why>
        requires { index < length wires.now }
    {
        let slot = wires.slot(index);
        if let Some(why) = self.slots.ended(slot) {
            return Some(why);
        }
        let silent = self.now.saturating_sub(self.slots.heard(slot));
        match wires.peer(index) {
            Some(Some(_)) if silent >= Duration::from_secs(MOST_SILENT) => Some(Why::Silent),
            _ => None,
        }
    }

    // The first link that is over.
    fn over(&self, wires: &Wires) -> Option<(usize, Why)>
        ensures { IfSome result (λ over. over.0 < length wires.now) }
    {
        for index in 0..wires.len() {
            if let Some(why) = self.why_over(wires, index) {
                return Some((index, why));
            }
        }
        None
    }

    // Its port may open another one.
    fn release(&mut self, number: u8) {
        if let Some(port) = self.ports.get_mut(index_of(number)) {
            port.released(self.now);
        }
    }

    // A link closes.
    fn close(&mut self, wires: &mut Wires, index: usize)
        requires { index < length wires.old }
        ensures { wires.new ≡ remove wires.old index }
    {
        let number = wires.remove(index);
        self.release(number);
    }

    // A link opens, the last one.
    fn add(&mut self, wires: &mut Wires, number: u8, end: End)
        requires { length wires.old < 32 }
        ensures { wires.new ≡ wires.old ++ number ∷ [] }
    {
        let mut end = end;
        let slot = wires.free_slot();
        self.slots.begin(slot, self.now);
        if let End::Peer(_) = &end {
            self.slots.rest(slot);
        }
        if !end.watched(self.poll.registry(), Token(MOST_PORTS + slot)) {
            self.slots.end(slot, Why::Fault);
        }
        wires.push(number, slot, end);
    }

    /// Somebody becomes a link, the last one.
    pub(crate) fn adopt(&mut self, wires: &mut Wires, number: u8, peer: SocketAddr)
        requires { length wires.old < 32 }
        ensures { wires.new ≡ wires.old ++ number ∷ [] }
    {
        self.add(wires, number, End::Peer(Some(peer)));
    }

    /// Somebody is one too many, which is news.
    pub(crate) fn refuse(&mut self, number: u8) {
        if let Some(port) = self.ports.get_mut(index_of(number)) {
            port.refuses = true;
        }
    }

    // What happens next at a port.
    fn step(&mut self, number: u8, has_room: bool) -> Step {
        let at = index_of(number);
        let place = Place {
            token: Token(at),
            has_room,
            now: self.now,
        };
        match self.ports.get_mut(at) {
            Some(port) => port.step(&self.rt, self.poll.registry(), place),
            None => Step::Nothing,
        }
    }

    // A link opens at a port, or is refused.
    fn link(&mut self, wires: &mut Wires, number: u8, end: End) -> HubNews
        requires from { 1 ≤ number }
        requires to { number ≤ 8 }
        ensures news { IsNews result wires.old }
        ensures wires { wires.new ≡ ports_told (Some result) wires.old }
    {
        if !wires.has_room(number) {
            self.release(number);
            return HubNews::Refused(number);
        }
        self.add(wires, number, end);
        HubNews::Opened(number)
    }

    // What happened at a port.
    fn port_news(&mut self, wires: &mut Wires, number: u8) -> Option<HubNews>
        requires from { 1 ≤ number }
        requires to { number ≤ 8 }
        ensures news { IfSome result (λ news. IsNews news wires.old) }
        ensures wires { wires.new ≡ ports_told result wires.old }
    {
        let has_room = wires.has_room(number);
        match self.step(number, has_room) {
            Step::Link(end) => Some(self.link(wires, number, end)),
            Step::Waits => Some(HubNews::Waits(number)),
            Step::TooMany if !has_room => Some(HubNews::Refused(number)),
            _ => None,
        }
    }

    /// What happened.
    pub(crate) fn news(&mut self, wires: &mut Wires) -> Option<HubNews>
        ensures news { IfSome result (λ news. IsNews news wires.old) }
        ensures wires { wires.new ≡ ports_told result wires.old }
    {
        self.tick();
        if let Some((index, why)) = self.over(wires) {
            self.close(wires, index);
            return Some(HubNews::Closed(index, why));
        }
        for number in 1..9 {
            if let Some(news) = self.port_news(wires, number) {
                return Some(news);
            }
        }
        None
    }

    // What a read came to.
    fn was_read(&mut self, slot: usize, is_file: bool, moved: Moved) -> usize
        ensures { (most : ℕ) → MovesWithin moved most → result ≤ most }
    {
        match moved {
            Moved::Bytes(count) => return count,
            Moved::Nothing => self.slots.rest(slot),
            Moved::Ended if is_file => self.slots.read_whole(slot),
            Moved::Ended => self.slots.end(slot, Why::Ended),
            Moved::Failed => self.slots.end(slot, Why::Fault),
        }
        0
    }

    // What is there of a peer.
    fn receive(
        &mut self,
        wires: &Wires,
        index: usize,
        peer: Option<SocketAddr>,
        buf: &mut [u8],
    ) -> usize
        requires { index < length wires.now }
        ensures { result ≤ length buf.new }
    {
        let at = index_of(wires.port(index));
        let count = match self.ports.get_mut(at) {
            Some(port) => port.receive(peer, buf),
            None => 0,
        };
        if count > 0 {
            self.slots.hear(wires.slot(index), self.now);
        }
        count
    }

    /// What is there of a link.
    pub(crate) fn read(&mut self, wires: &Wires, index: usize, buf: &mut [u8]) -> usize
        requires { index < length wires.now }
        ensures { result ≤ length buf.new }
    {
        if buf.is_empty() {
            return 0;
        }
        if let Some(peer) = wires.peer(index) {
            return self.receive(wires, index, peer, buf);
        }
        let slot = wires.slot(index);
        if !self.slots.is_ready(slot) {
            return 0;
        }
        let moved = wires.read(index, buf);
        self.was_read(slot, wires.is_file(index), moved)
    }

    // How many of these bytes are sent to a peer.
    fn send(&self, number: u8, peer: Option<SocketAddr>, bytes: &[u8]) -> usize
        requires { 0 < length bytes.now }
        ensures { result ≤ length bytes.now }
    {
        match self.ports.get(index_of(number)) {
            Some(port) => port.send(peer, bytes),
            None => 0,
        }
    }

    // What a write came to.
    fn was_written(&mut self, slot: usize, moved: Moved) -> usize
        ensures { (most : ℕ) → MovesWithin moved most → result ≤ most }
    {
        match moved {
            Moved::Bytes(count) => count,
            Moved::Nothing => 0,
            Moved::Ended | Moved::Failed => {
                self.slots.end(slot, Why::Fault);
                0
            }
        }
    }

    /// How many of these bytes a link takes.
    pub(crate) fn write(&mut self, wires: &Wires, index: usize, bytes: &[u8]) -> usize
        requires { index < length wires.now }
        ensures { result ≤ length bytes.now }
    {
        if bytes.is_empty() {
            return 0;
        }
        if let Some(peer) = wires.peer(index) {
            return self.send(wires.port(index), peer, bytes);
        }
        let slot = wires.slot(index);
        if self.slots.ended(slot).is_some() {
            return 0;
        }
        let moved = wires.write(index, bytes);
        self.was_written(slot, moved)
    }

    // A stranger's datagram at a port.
    fn asker(&mut self, wires: &Wires, number: u8, buf: &mut [u8]) -> Option<(Stranger, SocketAddr)>
        ensures port { IfSome result (λ asker. asker.0.port ≡ number) }
        ensures within { IfSome result (λ asker. asker.0.count ≤ length buf.new) }
    {
        let port = self.ports.get_mut(index_of(number))?;
        let peer = port.asker()?;
        if wires.knows(number, peer) {
            return None;
        }
        let count = port.take_letter(buf);
        Some((
            Stranger {
                port: number,
                count,
            },
            peer,
        ))
    }

    /// The next datagram of somebody who has no link, with its sender.
    pub(crate) fn stranger(
        &mut self,
        wires: &Wires,
        buf: &mut [u8],
    ) -> Option<(Stranger, SocketAddr)>
        ensures port { IfSome result (λ asker. (1 ≤ asker.0.port) × (asker.0.port ≤ 8)) }
        ensures within { IfSome result (λ asker. asker.0.count ≤ length buf.new) }
    {
        for number in 1..9 {
            if let Some(asker) = self.asker(wires, number, buf) {
                return Some(asker);
            }
        }
        None
    }
}
