// A hub over memory, at which happens what its maker lists.
ghost use Rattle.std.specs.Prelude.{◌≡◌, ◌+◌, ◌-◌, ◌++◌, ◌<◌, ◌≤◌, drop, get_or, length, min, take, IfOk, IfSome};
ghost use Rattle.std.specs.Prelude.{Some};
ghost use Rattle.relay_hub.specs.Hubs.{AreOpened, adopts, asks, blank, gives, happens, place_of, takes, tape_of};
ghost use Rattle.relay_hub.specs.MemHubs.{after_read, after_stranger, after_write, front, given_at};
ghost use Rattle.relay_hub.specs.MemHubs.{hub_from_start, is_over, links_at, most_bytes, news_at, opening_at};
ghost use Rattle.relay_hub.specs.MemHubs.{next_stranger, piece_at, read_count, write_count};
ghost use Rattle.relay_hub.specs.Seats.{IsNews, has_room, may_adopt};
ghost use Rattle.relay_hub.specs.Seats.{port_of, ports_of, ports_told, seats_of};

use crate::happenings::{is_port, waiting_news};
use crate::mem_tape::{MemTape, open, spare_tapes};
use crate::{Happening, HubNews, NoMemory, Stranger, Why};
use std::alloc::Global;
use std::marker::Model;

const MOST_LINKS: usize = 32;

const MOST_OF_A_PORT: usize = 8;

// A datagram has at most so many bytes.
const MOST_BYTES: usize = 65_536;

/// A hub that tells its bytes. What is to happen does so in its order: `next` tells the news of it, reads and
/// strangers give the bytes, and none of these sees what comes behind another's. What can't happen is passed over.
pub struct MemHub {
    tapes: Vec<MemTape>,
    spares: Vec<MemTape>,
    links: Vec<usize>,
    asker: Option<u8>,
    datagram: Vec<u8>,
    script: Vec<Happening>,
    step: usize,
    bytes: Vec<u8>,
    at: usize,
    most: Vec<usize>,
    writes: usize,
}

// By hand, so that whoever drops it proves one call.
impl Drop for MemHub {
    fn drop(self) {
        let MemHub {
            tapes: _tapes,
            spares: _spares,
            links: _links,
            asker: _,
            datagram: _datagram,
            script: _script,
            step: _,
            bytes: _bytes,
            at: _,
            most: _most,
            writes: _,
        } = self;
    }
}

impl Model for MemHub {
    ghost use Rattle.std.specs.Prelude.{vec_len, vec_capacity};
    ghost use Rattle.std.specs.Option.{option_map};
    ghost use Rattle.relay_hub.specs.MemHubs.{MemHubState};
    ghost use Rattle.relay_hub.specs.MemRooms.{HasRooms};

    ghost Value = { MemHubState };

    ghost view = { λ h. record {
      hub = record {
        tapes = h.tapes.items;
        links = h.links.items;
        stranger = option_map (λ port. record { port = port; bytes = h.datagram.items }) h.asker;
      };
      script = h.script.items;
      step = h.step;
      bytes = h.bytes.items;
      at = h.at;
      most = h.most.items;
      writes = h.writes;
    } };

    ghost invariant = { λ h. HasRooms (record {
      links = h.links.items;
      tapes = vec_len h.tapes;
      tape_room = vec_capacity h.tapes;
      spares = vec_len h.spares;
      link_room = vec_capacity h.links;
      asker = h.asker;
      datagram = vec_len h.datagram;
      datagram_room = vec_capacity h.datagram;
      script = vec_len h.script;
      step = h.step;
      bytes = vec_len h.bytes;
      at = h.at;
    }) };
}

impl MemHub {
    /// At first no link is open. What is to happen does so as it is listed, with these bytes; each write takes as many
    /// bytes at most as is listed, and all of them once nothing more is. It allocates all its memory here.
    pub fn new(
        alloc: Global,
        script: Vec<Happening>,
        bytes: Vec<u8>,
        most: Vec<usize>,
    ) -> Result<MemHub, NoMemory>
        ensures start { IfOk result (λ hub. hub ≡ hub_from_start script.items bytes.items most.items) }
    {
        let tapes = Vec::with_capacity(alloc, script.len())?;
        let spares = spare_tapes(alloc, script.len())?;
        let links = Vec::with_capacity(alloc, MOST_LINKS)?;
        let datagram = Vec::with_capacity(alloc, MOST_BYTES)?;
        Ok(MemHub {
            tapes,
            spares,
            links,
            asker: None,
            datagram,
            script,
            step: 0,
            bytes,
            at: 0,
            most,
            writes: 0,
        })
    }

    // The port of the link with that number.
    fn port_of(&self, number: usize) -> u8
        ensures { result ≡ port_of self.now.hub.tapes number }
    {
        match self.tapes.get(number.saturating_sub(1)) {
            Some(tape) => tape.port(),
            None => 0,
        }
    }

    // How many open links the port has.
    fn links_at(&self, port: u8) -> usize
        ensures { result ≡ links_at port self.now.hub }
    {
        self.links
            .iter()
            .filter(|number| self.port_of(**number) == port)
            .count()
    }

    fn has_room(&self, port: u8) -> bool
        ensures { result ≡ has_room port (ports_of self.now.hub) }
    {
        self.links.len() < MOST_LINKS && self.links_at(port) < MOST_OF_A_PORT
    }

    /// What is to happen next.
    pub(crate) fn front(&self) -> Option<Happening>
        ensures front { result ≡ front self.now }
        ensures step { IfSome result (λ _. self.now.step < length self.now.script) }
    {
        self.script.get(self.step).copied()
    }

    // A link that opens at this port does, or is refused.
    fn opening(&self, port: u8) -> HubNews
        requires from { 1 ≤ port }
        requires to { port ≤ 8 }
        ensures opening { result ≡ opening_at port (ports_of self.now.hub) }
        ensures news { IsNews result (ports_of self.now.hub) }
    {
        if self.has_room(port) {
            HubNews::Opened(port)
        } else {
            HubNews::Refused(port)
        }
    }

    /// The news of what is to happen, if it is news and can happen.
    pub(crate) fn news(&self, happening: Happening) -> Option<HubNews>
        ensures result { result ≡ news_at happening (ports_of self.now.hub) }
        ensures news { IfSome result (λ news. IsNews news (ports_of self.now.hub)) }
    {
        match happening {
            Happening::Opens(port) => self.opening_news(port),
            Happening::Closes(index, why) => self.closing_news(index, why),
            Happening::Fails(port) => waiting_news(port),
            Happening::Gives(_, _) | Happening::Asks(_, _) => None,
        }
    }

    fn opening_news(&self, port: u8) -> Option<HubNews>
        ensures result { result ≡ news_at (Happening.Opens port) (ports_of self.now.hub) }
        ensures news { IfSome result (λ news. IsNews news (ports_of self.now.hub)) }
    {
        if is_port(port) {
            Some(self.opening(port))
        } else {
            None
        }
    }

    fn closing_news(&self, index: usize, why: Why) -> Option<HubNews>
        ensures result { result ≡ news_at (Happening.Closes index why) (ports_of self.now.hub) }
        ensures news { IfSome result (λ news. IsNews news (ports_of self.now.hub)) }
    {
        if index < self.links.len() {
            Some(HubNews::Closed(index, why))
        } else {
            None
        }
    }

    /// Whether it is over once it was told, or passed over.
    pub(crate) fn is_over(&self, happening: Happening) -> bool
        ensures { result ≡ is_over happening (ports_of self.now.hub) }
    {
        match happening {
            Happening::Opens(_) | Happening::Closes(_, _) | Happening::Fails(_) => true,
            Happening::Gives(index, count) => count == 0 || index >= self.links.len(),
            Happening::Asks(port, _) => !is_port(port),
        }
    }

    // What is to happen does.
    fn advance(&mut self, news: HubNews)
        requires news { IsNews news (ports_of self.old.hub) }
        requires step { self.old.step < length self.old.script }
        ensures state { self.new ≡ record self.old {
          hub = happens (Some news) self.old.hub;
          step = self.old.step + 1;
        } }
        ensures opened { AreOpened self.old.hub }
    {
        self.step += 1;
        match news {
            HubNews::Opened(port) => open(
                &mut self.tapes,
                &mut self.spares,
                &mut self.links,
                port,
                &[],
            ),
            HubNews::Closed(index, _) => {
                let _number = self.links.remove(index);
            }
            HubNews::Refused(_) | HubNews::Waits(_) => {}
        }
    }

    /// What is to happen does, and is told.
    pub(crate) fn tell(&mut self, news: HubNews)
        requires news { IsNews news (ports_of self.old.hub) }
        requires step { self.old.step < length self.old.script }
        ensures state { self.new ≡ record self.old {
          hub = happens (Some news) self.old.hub;
          step = self.old.step + 1;
        } }
        ensures ports { ports_of self.new.hub ≡ ports_told (Some news) (ports_of self.old.hub) }
    {
        self.advance(news);
    }

    /// What is to happen is passed over.
    pub(crate) fn pass_over(&mut self)
        requires { self.old.step < length self.old.script }
        ensures { self.new ≡ record self.old { step = self.old.step + 1 } }
    {
        self.step += 1;
    }

    // So many of the next bytes are given by the link with this tape.
    fn give(&mut self, place: usize, count: usize)
        requires within { place < length self.old.hub.tapes }
        requires bytes { self.old.at + count ≤ length self.old.bytes }
        requires room { length (get_or self.old.hub.tapes place (blank 0)).given + count ≤ 65536 }
        ensures { self.new ≡ given_at place count self.old }
    {
        let at = self.at;
        self.tapes[place].give(&self.bytes[at..at + count]);
        self.at += count;
    }

    /// The next bytes of an open link.
    pub(crate) fn give_next(&mut self, index: usize, buf: &mut [u8]) -> usize
        requires { index < length (ports_of self.old.hub) }
        ensures within { result ≤ length buf.new }
        ensures state { self.new.hub ≡ gives index (take result buf.new) self.old.hub }
        ensures answer { result ≡ read_count index (length buf.old) self.old }
        ensures after { self.new ≡ after_read index result self.old }
        ensures buffer { buf.new ≡ take result (drop self.old.at self.old.bytes) ++ drop result buf.old }
    {
        let piece = self.piece(index);
        let place = self.place(index);
        let most = buf.len().min(self.left_to_give(place));
        let count = piece.unwrap_or(0).min(most);
        let at = self.at;
        buf[..count].copy_from_slice(&self.bytes[at..at + count]);
        self.give(place, count);
        if let Some(piece) = piece {
            self.script[self.step] = Happening::Gives(index, piece - count);
        }
        count
    }

    /// An open link takes bytes.
    pub(crate) fn take_next(&mut self, index: usize, bytes: &[u8]) -> usize
        requires { index < length (ports_of self.old.hub) }
        ensures within { result ≤ length bytes.now }
        ensures state { self.new.hub ≡ takes index (take result bytes.now) self.old.hub }
        ensures answer { result ≡ write_count index (length bytes.now) self.old }
        ensures after { self.new ≡ after_write index (take result bytes.now) self.old }
    {
        let place = self.place(index);
        let most = self.most_to_write(bytes.len());
        let count = bytes.len().min(most.min(self.tapes[place].left_to_take()));
        self.tapes[place].take(&bytes[..count]);
        if self.writes < self.most.len() {
            self.writes += 1;
        }
        count
    }

    /// The datagram that is next.
    pub(crate) fn hear_next(&mut self, buf: &mut [u8]) -> Option<Stranger>
        ensures port { IfSome result (λ s. (1 ≤ s.port) × (s.port ≤ 8)) }
        ensures within { IfSome result (λ s. s.count ≤ length buf.new) }
        ensures state { self.new.hub ≡ asks result buf.new self.old.hub }
        ensures answer { result ≡ next_stranger (length buf.old) self.old }
        ensures after { self.new ≡ after_stranger result self.old }
    {
        self.asker = None;
        let stranger = self.next_stranger(buf.len())?;
        let count = stranger.count;
        let at = self.at;
        buf[..count].copy_from_slice(&self.bytes[at..at + count]);
        self.datagram.clear();
        self.datagram
            .extend_from_slice(&self.bytes[at..at + count])
            .unwrap();
        self.asker = Some(stranger.port);
        self.at += count;
        self.step += 1;
        Some(stranger)
    }

    /// The stranger becomes a link, if there is room.
    pub(crate) fn take_in(&mut self, from: usize) -> bool
        ensures answer { result ≡ may_adopt (seats_of self.old.hub) }
        ensures after { self.new ≡ record self.old { hub = adopts result from self.old.hub } }
        ensures opened { AreOpened self.old.hub }
    {
        let Some(port) = self.asker.take() else {
            return false;
        };
        if !self.has_room(port) {
            return false;
        }
        let from = from.min(self.datagram.len());
        open(
            &mut self.tapes,
            &mut self.spares,
            &mut self.links,
            port,
            &self.datagram[from..],
        );
        true
    }

    // How many bytes an open link still gives before anything else happens.
    fn piece(&self, index: usize) -> Option<usize>
        ensures piece { result ≡ piece_at index (front self.now) }
        ensures step { IfSome result (λ _. self.now.step < length self.now.script) }
    {
        match self.front() {
            Some(Happening::Gives(link, count)) if link == index => Some(count),
            _ => None,
        }
    }

    // Where the tape of an open link is.
    fn place(&self, index: usize) -> usize
        requires { index < length (ports_of self.now.hub) }
        ensures place { result ≡ place_of index self.now.hub }
        ensures within { result < length self.now.hub.tapes }
    {
        self.links[index].saturating_sub(1)
    }

    // How many bytes are left that the link with this tape may give.
    fn left_to_give(&self, place: usize) -> usize
        requires { place < length self.now.hub.tapes }
        ensures left { result ≡ min (length self.now.bytes - self.now.at)
            (most_bytes - length (get_or self.now.hub.tapes place (blank 0)).given) }
        ensures bytes { self.now.at + result ≤ length self.now.bytes }
        ensures room { length (get_or self.now.hub.tapes place (blank 0)).given + result ≤ 65536 }
    {
        let left = self.bytes.len() - self.at;
        left.min(self.tapes[place].left_to_give())
    }

    // How many bytes the next write takes at most.
    fn most_to_write(&self, offered: usize) -> usize
        ensures { result ≡ get_or self.now.most self.now.writes offered }
    {
        match self.most.get(self.writes) {
            Some(most) => *most,
            None => offered,
        }
    }

    // The datagram that is next, as much of it as there is room for.
    fn next_stranger(&self, room: usize) -> Option<Stranger>
        ensures stranger { result ≡ next_stranger room self.now }
        ensures bytes { IfSome result (λ s. self.now.at + s.count ≤ length self.now.bytes) }
        ensures room { IfSome result (λ s. s.count ≤ room) }
        ensures short { IfSome result (λ s. s.count ≤ 65536) }
        ensures port { IfSome result (λ s. (1 ≤ s.port) × (s.port ≤ 8)) }
        ensures step { IfSome result (λ s. self.now.step < length self.now.script) }
    {
        let left = self.bytes.len() - self.at;
        match self.front() {
            Some(Happening::Asks(port, count)) if is_port(port) => Some(Stranger {
                port,
                count: count.min(room.min(left.min(MOST_BYTES))),
            }),
            _ => None,
        }
    }
}
