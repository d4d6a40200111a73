// A link over a stream that waits for its bytes.
ghost use Rattle.std.specs.Prelude.{◌≡◌, ◌<◌, true, None, length};
ghost use Rattle.mav_ports.specs.Gets.{given, CountsFault, EndsOnly, GivesWithin, idles_after, left_in};
ghost use Rattle.mav_ports.specs.Puts.{taken, CountsRefusal, TakesWithin};
ghost use Rattle.std.specs.Io.KnownBytes.{Appends, Consumes};
ghost use Rattle.mav_links.specs.Tallies.{nothing_counted};

use crate::tallies::{Tally, put_once, read_waiting};
use crate::{Bell, Link, Waits};
use mav_ports::{Got, Put};
use std::io::{Read, Write};
use std::sync::Arc;

/// A link over any stream, as a TCP connection. It says nothing of the bytes, idles where a read of the stream would
/// wait, and counts each other error as a fault. Over no stream, as one that couldn't be opened, each call fails.
#[derive(Drop)]
pub struct TcpLink<S: Read + Write + Waits + Drop> {
    stream: Option<S>,
    tally: Tally,
}

impl<S: Read + Write + Waits + Drop> TcpLink<S> {
    pub fn new(stream: Option<S>) -> TcpLink<S>
        ensures over { result.stream ≡ stream }
        ensures counts { result.tally ≡ nothing_counted }
    {
        TcpLink {
            stream,
            tally: Tally::new(),
        }
    }
}

impl<S: Read + Write + Waits + Send + Drop> Link for TcpLink<S> {
    ghost state = { λ l. record {
      left = None;
      sent = None;
      faults = l.tally.faults;
      idles = l.tally.idles;
      pauses =
          None;
      ended = l.tally.ended;
    } };

    fn read(&mut self, buf: &mut [u8]) -> Got
        requires { 0 < length buf.old }
        // What every link promises.
        ensures within { GivesWithin result buf.new }
        ensures faults { CountsFault result self.old.tally.faults self.new.tally.faults }
        ensures idles { self.new.tally.idles ≡ idles_after result self.old.tally.idles }
        ensures ended { result ≡ Got.End → self.new.tally.ended ≡ true }
        ensures only_end { EndsOnly result (self.old.tally.ended ≡ true) (self.new.tally.ended ≡ true) }
        ensures stays { self.old.tally.ended ≡ true → result ≡ Got.End }

        // It gives exactly what the stream consumed.
        ensures consumed { Consumes (left_in S.remaining self.old.stream) (left_in S.remaining self.new.stream)
            (given result buf.new) }
    {
        if self.tally.ended {
            return Got::End;
        }
        let got = match &mut self.stream {
            Some(stream) => read_waiting(stream, buf),
            None => Got::Failed,
        };
        self.tally.read(got);
        got
    }

    fn write(&mut self, bytes: &[u8]) -> Put
        requires { 0 < length bytes.now }
        // What every link promises.
        ensures within { TakesWithin result bytes.now }
        ensures faults { CountsRefusal result self.old.tally.faults self.new.tally.faults }
        ensures idles { self.new.tally.idles ≡ self.old.tally.idles }
        ensures ended { self.new.tally.ended ≡ self.old.tally.ended }

        // The stream got exactly the bytes that were taken.
        ensures wrote { Appends (left_in S.contents self.old.stream) (left_in S.contents self.new.stream)
            (taken result bytes.now) }
    {
        let put = match &mut self.stream {
            Some(stream) => put_once(stream, bytes),
            None => Put::Failed,
        };
        self.tally.write(put);
        put
    }

    fn sent(&self) -> &[u8] {
        &[]
    }

    fn is_ready(&mut self) -> bool {
        match &mut self.stream {
            Some(stream) => stream.is_ready(),
            None => true,
        }
    }

    fn rest(&mut self) {
        if let Some(stream) = &mut self.stream {
            stream.rest();
        }
    }

    fn room(&mut self) -> usize {
        match &mut self.stream {
            Some(stream) => stream.room(),
            None => usize::MAX,
        }
    }

    fn bell(&self) -> Option<Arc<Bell>> {
        match &self.stream {
            Some(stream) => stream.bell(),
            None => None,
        }
    }

    fn wakes(&mut self, bell: Arc<Bell>) {
        if let Some(stream) = &mut self.stream {
            stream.wakes(bell);
        }
    }
}
