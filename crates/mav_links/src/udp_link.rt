// A link over datagrams.
ghost use Rattle.std.specs.Prelude.{◌≡◌, ◌<◌, ◌≤◌, ◌++◌, true, false, None, Some, length, take, IfOk};
ghost use Rattle.mav_ports.specs.Gets.{given, CountsFault, EndsOnly, GivesWithin, idles_after};
ghost use Rattle.mav_ports.specs.Puts.{TakesWithin};
ghost use Rattle.mav_links.specs.Datagrams.{bytes_between};
ghost use Rattle.mav_links.specs.Links.{IsNoBytes};
ghost use Rattle.mav_links.specs.Tallies.{nothing_counted};

use crate::datagrams::datagram_size;
use crate::tallies::Tally;
use crate::{Bell, Link, NoMemory, PeerSocket};
use mav_ports::{Got, Put};
use std::alloc::Global;
use std::sync::Arc;
use std::time::Clock;

// As many bytes as a datagram can have.
const MOST_BYTES: usize = 65_536;

/// A link over a UDP socket. Each write sends one datagram, with the first of the frames given, or drops it if nobody
/// is there to send to. The part of a datagram that doesn't fit the buffer of a read is kept for the next. It says
/// nothing of the bytes; it idles if no byte came until Idle was due, and never fails, but over no socket at each
/// call.
#[derive(Drop)]
pub struct UdpLink<C: Clock + Drop> {
    socket: Option<PeerSocket<C>>,
    datagram: Vec<u8>,
    start: usize,
    end: usize,
    tally: Tally,
    ghost order: { start ≤ end },
    ghost within: { end ≤ length datagram.items },
}

impl<C: Clock + Drop> UdpLink<C> {
    /// Allocates room for a datagram.
    pub fn new(alloc: Global, socket: PeerSocket<C>) -> Result<UdpLink<C>, NoMemory>
        ensures over { IfOk result (λ link. link.socket ≡ Some socket) }
        ensures counts { IfOk result (λ link. link.tally ≡ nothing_counted) }
    {
        let datagram = vec![in alloc; 0; MOST_BYTES]?;
        Ok(UdpLink {
            socket: Some(socket),
            datagram,
            start: 0,
            end: 0,
            tally: Tally::new(),
        })
    }

    /// Over no socket. Doesn't allocate.
    pub fn closed(alloc: Global) -> UdpLink<C>
        ensures over { result.socket ≡ None }
        ensures counts { result.tally ≡ nothing_counted }
    {
        UdpLink {
            socket: None,
            datagram: Vec::new(alloc),
            start: 0,
            end: 0,
            tally: Tally::new(),
        }
    }

    // The buffer has a datagram of so many bytes, of which none was given.
    fn keep(&mut self, count: usize)
        requires { count ≤ length self.old.datagram.items }
        ensures whole { bytes_between self.new.start self.new.end self.new.datagram.items
            ≡ take count self.old.datagram.items }
        ensures size { self.new.end ≡ count }
        ensures counts { self.new.tally ≡ self.old.tally }
    {
        self.start = 0;
        self.end = count;
    }

    // Keeps the bytes of a datagram, if one came, and returns what a read gives where none is left.
    fn receive(&mut self) -> Got
        requires empty { self.old.start ≡ self.old.end }
        ensures none { IsNoBytes result }
        ensures counts { self.new.tally ≡ self.old.tally }
    {
        let Some(socket) = &mut self.socket else {
            return Got::Failed;
        };
        if let Some(count) = socket.receive(&mut self.datagram) {
            self.keep(count);
        }
        Got::Idle
    }

    // What is left of the datagram, or else that there was none.
    fn give(&mut self, got: Got, buf: &mut [u8]) -> Got
        requires some { 0 < length buf.old }
        requires none { IsNoBytes got }
        ensures within { GivesWithin result buf.new }
        // What was kept is what it gives, and what is kept now.
        ensures kept { bytes_between self.old.start self.old.end self.old.datagram.items
            ≡ given result buf.new ++ bytes_between self.new.start self.new.end self.new.datagram.items }
        // It gives nothing only where nothing was kept.
        ensures none_left { IsNoBytes result → self.old.start ≡ self.old.end }
        ensures counts { self.new.tally ≡ self.old.tally }
    {
        let count = (self.end - self.start).min(buf.len());
        if count == 0 {
            return got;
        }
        buf[..count].copy_from_slice(&self.datagram[self.start..self.start + count]);
        self.start += count;
        Got::Bytes(count)
    }

    // Whether there are bytes of a datagram, of one that is there already if not of the last.
    fn has_bytes(&mut self) -> bool
        ensures counts { self.new.tally ≡ self.old.tally }
    {
        if self.start < self.end {
            return true;
        }
        let Some(socket) = &mut self.socket else {
            return true;
        };
        let Some(count) = socket.look(&mut self.datagram) else {
            return false;
        };
        self.keep(count);
        true
    }
}

// What a send of the first frame took.
fn send<C: Clock + Drop>(socket: &mut PeerSocket<C>, bytes: &[u8]) -> Put
    requires { 0 < length bytes.now }
    ensures { TakesWithin result bytes.now }
{
    if !socket.has_peer() {
        return Put::Took(bytes.len());
    }
    let size = datagram_size(bytes);
    socket.send(&bytes[..size]);
    Put::Took(size)
}

impl<C: Clock + Send + Drop> Link for UdpLink<C> {
    ghost state = { λ l. record {
      left = None;
      sent = None;
      faults = l.tally.faults;
      idles = l.tally.idles;
      pauses =
          None;
      ended = l.tally.ended;
    } };

    fn read(&mut self, buf: &mut [u8]) -> Got
        requires { 0 < length buf.old }
        // What every link promises.
        ensures within { GivesWithin result buf.new }
        ensures faults { CountsFault result self.old.tally.faults self.new.tally.faults }
        ensures idles { self.new.tally.idles ≡ idles_after result self.old.tally.idles }
        ensures ended { result ≡ Got.End → self.new.tally.ended ≡ true }
        ensures only_end { EndsOnly result (self.old.tally.ended ≡ true) (self.new.tally.ended ≡ true) }
        ensures stays { self.old.tally.ended ≡ true → result ≡ Got.End }

        // What was kept is what it gives, and what is kept now.
        ensures kept { self.old.start < self.old.end → self.old.tally.ended ≡ false →
            bytes_between self.old.start self.old.end self.old.datagram.items
            ≡ given result buf.new ++ bytes_between self.new.start self.new.end self.new.datagram.items }
    {
        if self.tally.ended {
            return Got::End;
        }
        let got = if self.start == self.end {
            self.receive()
        } else {
            Got::Idle
        };
        let got = self.give(got, buf);
        self.tally.read(got);
        got
    }

    fn write(&mut self, bytes: &[u8]) -> Put {
        let put = match &mut self.socket {
            Some(socket) => send(socket, bytes),
            None => Put::Failed,
        };
        self.tally.write(put);
        put
    }

    fn sent(&self) -> &[u8] {
        &[]
    }

    fn is_ready(&mut self) -> bool {
        let has_bytes = self.has_bytes();
        match &mut self.socket {
            Some(socket) => has_bytes || socket.is_due(),
            None => true,
        }
    }

    fn rest(&mut self) {
        if let Some(socket) = &mut self.socket {
            socket.rest();
        }
    }

    fn bell(&self) -> Option<Arc<Bell>> {
        match &self.socket {
            Some(socket) => socket.bell(),
            None => None,
        }
    }

    fn wakes(&mut self, bell: Arc<Bell>) {
        if let Some(socket) = &mut self.socket {
            socket.wakes(bell);
        }
    }
}
