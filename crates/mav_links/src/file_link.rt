// A link over two files.
ghost use Rattle.std.specs.Prelude.{◌≡◌, ◌⊎◌, ◌<◌, true, None, IsSome, IsNone, length};
ghost use Rattle.mav_ports.specs.Gets.{given, CountsFault, EndsOnly, GivesWithin, idles_after, left_in};
ghost use Rattle.mav_ports.specs.Puts.{taken, CountsRefusal, TakesWithin};
ghost use Rattle.std.specs.Io.KnownBytes.{Appends, Consumes};
ghost use Rattle.mav_links.specs.Tallies.{nothing_counted};

use crate::Link;
use crate::tallies::{Tally, put_once};
use mav_ports::{Got, Put, read_once};
use std::io::{Read, Write};

/// A link that reads from any reader and writes to any writer, as of two files. It says nothing of the bytes, never
/// idles, and counts each error as a fault. If either is missing, as a file that couldn't be opened, each call fails.
#[derive(Drop)]
pub struct FileLink<R: Read + Drop, W: Write + Drop> {
    reader: Option<R>,
    writer: Option<W>,
    tally: Tally,
}

impl<R: Read + Drop, W: Write + Drop> FileLink<R, W> {
    pub fn new(reader: Option<R>, writer: Option<W>) -> FileLink<R, W>
        ensures over { IsSome reader → IsSome writer → (result.reader ≡ reader) × (result.writer ≡ writer) }
        ensures missing { IsNone reader ⊎ IsNone writer → IsNone result.reader × IsNone result.writer }
        ensures counts { result.tally ≡ nothing_counted }
    {
        let both = reader.is_some() && writer.is_some();
        FileLink {
            reader: if both { reader } else { None },
            writer: if both { writer } else { None },
            tally: Tally::new(),
        }
    }
}

// What the reader gave.
fn read_from<R: Read>(reader: &mut R, buf: &mut [u8]) -> Got
    ensures within { GivesWithin result buf.new }
    ensures consumed { Consumes (R.remaining reader.old) (R.remaining reader.new) (given result buf.new) }
{
    match read_once(reader, buf) {
        Ok(0) => Got::End,
        Ok(count) => Got::Bytes(count),
        Err(_) => Got::Failed,
    }
}

impl<R: Read + Send + Drop, W: Write + Send + Drop> Link for FileLink<R, W> {
    ghost state = { λ l. record {
      left = None;
      sent = None;
      faults = l.tally.faults;
      idles = l.tally.idles;
      pauses =
          None;
      ended = l.tally.ended;
    } };

    fn read(&mut self, buf: &mut [u8]) -> Got
        requires { 0 < length buf.old }
        // What every link promises.
        ensures within { GivesWithin result buf.new }
        ensures faults { CountsFault result self.old.tally.faults self.new.tally.faults }
        ensures idles { self.new.tally.idles ≡ idles_after result self.old.tally.idles }
        ensures ended { result ≡ Got.End → self.new.tally.ended ≡ true }
        ensures only_end { EndsOnly result (self.old.tally.ended ≡ true) (self.new.tally.ended ≡ true) }
        ensures stays { self.old.tally.ended ≡ true → result ≡ Got.End }

        // It gives exactly what the reader consumed.
        ensures consumed { Consumes (left_in R.remaining self.old.reader) (left_in R.remaining self.new.reader)
            (given result buf.new) }
    {
        if self.tally.ended {
            return Got::End;
        }
        let got = match &mut self.reader {
            Some(reader) => read_from(reader, buf),
            None => Got::Failed,
        };
        self.tally.read(got);
        got
    }

    fn write(&mut self, bytes: &[u8]) -> Put
        requires { 0 < length bytes.now }
        // What every link promises.
        ensures within { TakesWithin result bytes.now }
        ensures faults { CountsRefusal result self.old.tally.faults self.new.tally.faults }
        ensures idles { self.new.tally.idles ≡ self.old.tally.idles }
        ensures ended { self.new.tally.ended ≡ self.old.tally.ended }

        // The writer got exactly the bytes that were taken.
        ensures wrote { Appends (left_in W.contents self.old.writer) (left_in W.contents self.new.writer)
            (taken result bytes.now) }
    {
        let put = match &mut self.writer {
            Some(writer) => put_once(writer, bytes),
            None => Put::Failed,
        };
        self.tally.write(put);
        put
    }

    fn sent(&self) -> &[u8] {
        &[]
    }
}
