// What an adapter over the system counts.
ghost use Rattle.std.specs.Prelude.{◌≡◌, true};
ghost use Rattle.mav_ports.specs.Gets.{given, CountsFault, EndsOnly, GivesWithin, idles_after};
ghost use Rattle.std.specs.Io.KnownBytes.{Appends, Consumes};
ghost use Rattle.mav_ports.specs.Puts.{taken, CountsRefusal, TakesWithin};
ghost use Rattle.mav_links.specs.Links.{IsNoBytes};
ghost use Rattle.mav_links.specs.Tallies.{nothing_counted};

use mav_ports::{Got, Put, read_once, write_once};
use std::io::{ErrorKind, Read, Write};

/// How many calls failed and how many reads returned Idle, and whether one returned End.
#[derive(Clone, Copy)]
pub(crate) struct Tally {
    pub(crate) faults: u64,
    pub(crate) idles: u64,
    pub(crate) ended: bool,
}

impl Tally {
    pub(crate) fn new() -> Tally
        ensures { result ≡ nothing_counted }
    {
        Tally {
            faults: 0,
            idles: 0,
            ended: false,
        }
    }

    /// Counts the result of a read.
    pub(crate) fn read(&mut self, got: Got)
        ensures faults { CountsFault got self.old.faults self.new.faults }
        ensures idles { self.new.idles ≡ idles_after got self.old.idles }
        ensures ended { got ≡ Got.End → self.new.ended ≡ true }
        ensures only_end { EndsOnly got (self.old.ended ≡ true) (self.new.ended ≡ true) }
        ensures stays { self.old.ended ≡ true → self.new.ended ≡ true }
    {
        match got {
            Got::Bytes(_) => {}
            Got::Idle => self.idles = self.idles.saturating_add(1),
            Got::End => self.ended = true,
            Got::Failed => self.faults = self.faults.saturating_add(1),
        }
    }

    /// Counts the result of a write.
    pub(crate) fn write(&mut self, put: Put)
        ensures faults { CountsRefusal put self.old.faults self.new.faults }
        ensures idles { self.new.idles ≡ self.old.idles }
        ensures ended { self.new.ended ≡ self.old.ended }
    {
        if let Put::Failed = put {
            self.faults = self.faults.saturating_add(1);
        }
    }
}

/// What a reader gave that waits for its bytes: Idle if none came in time.
pub(crate) fn read_waiting<R: Read>(reader: &mut R, buf: &mut [u8]) -> Got
    ensures within { GivesWithin result buf.new }
    ensures consumed { Consumes (R.remaining reader.old) (R.remaining reader.new) (given result buf.new) }
{
    match read_once(reader, buf) {
        Ok(0) => Got::End,
        Ok(count) => Got::Bytes(count),
        Err(error) => waited(error.kind()),
    }
}

/// What a read that met this error gave.
pub(crate) fn waited(kind: ErrorKind) -> Got
    ensures { IsNoBytes result }
{
    if kind == ErrorKind::WouldBlock || kind == ErrorKind::TimedOut {
        Got::Idle
    } else {
        Got::Failed
    }
}

/// What a writer took.
pub(crate) fn put_once<W: Write>(writer: &mut W, bytes: &[u8]) -> Put
    ensures within { TakesWithin result bytes.now }
    ensures wrote { Appends (W.contents writer.old) (W.contents writer.new) (taken result bytes.now) }
{
    match write_once(writer, bytes) {
        Ok(count) if count > 0 => Put::Took(count),
        _ => Put::Failed,
    }
}
