// A link over memory that fails and idles at the calls that its maker lists.
ghost use Rattle.std.specs.Prelude.{◌≡◌, ◌<◌, ◌≤◌, ◌++◌, ◌∷◌, true, length, [], IfOk, vec_len, vec_capacity};
ghost use Rattle.mav_ports.specs.Gets.{given, CountsFault, EndsOnly, GivesWithin, idles_after};
ghost use Rattle.mav_ports.specs.Puts.{taken, TakesWithin, CountsRefusal};
ghost use Rattle.mav_ports.specs.MemReads.{read_answer, after_read, buffer_after};
ghost use Rattle.mav_ports.specs.MemWrites.{write_answer, after_write};
ghost use Rattle.mav_links.specs.Links.{pauses_after};
ghost use Rattle.mav_links.specs.MemLinks.{link_from_start, link_state};

use crate::{Link, NoMemory};
use mav_ports::{Got, MemSink, MemSource, Put, Sink, Source};
use std::alloc::Global;
use std::marker::Model;

/// A link that reads as a `MemSource` and writes as a `MemSink`.
#[derive(Drop)]
pub struct MemLink {
    source: MemSource,
    sink: MemSink,
    given: usize,
    pauses: Vec<usize>,
}

impl Model for MemLink {
    ghost use Rattle.std.specs.Prelude.{◌+◌, ◌<◌, ◌≤◌, ◌^◌, length, vec_capacity};
    ghost use Rattle.mav_links.specs.MemLinks.{MemLinkState, listed_before};

    ghost Value = { MemLinkState };

    ghost view = { λ l. record {
      reads = l.source;
      writes = l.sink;
      pauses = record { given = l.given; before = l.pauses.items };
    } };

    ghost invariant = { λ l. (length l.pauses.items ≤ listed_before l.source.idles l.source.call)
        × (length l.source.idles ≤ vec_capacity l.pauses)
        × (l.given + length l.source.left < 2 ^ 64) };
}

impl MemLink {
    /// It reads `bytes` and has room for `room` bytes to write, at most `chunk` of either a call. Reads and writes are
    /// each numbered from 0: it fails at those in `read_fails` and `write_fails`, and idles at the reads in `idles`
    /// that aren't in `read_fails` too. It allocates all its memory here.
    pub fn new(
        alloc: Global,
        bytes: Vec<u8>,
        chunk: usize,
        read_fails: Vec<u64>,
        idles: Vec<u64>,
        room: usize,
        write_fails: Vec<u64>,
    ) -> Result<MemLink, NoMemory>
        requires { 0 < chunk }
        ensures start { IfOk result (λ link. link ≡ link_from_start bytes.items chunk read_fails.items idles.items room
            write_fails.items) }
    {
        let pauses = Vec::with_capacity(alloc, idles.len())?;
        let sink = MemSink::new(alloc, room, chunk, write_fails)?;
        Ok(MemLink {
            source: MemSource::new(bytes, chunk, read_fails, idles),
            sink,
            given: 0,
            pauses,
        })
    }
}

// Appends a number, for which there is room.
fn keep(numbers: &mut Vec<usize>, number: usize)
    requires { vec_len numbers.old < vec_capacity numbers.old }
    ensures items { numbers.new.items ≡ numbers.old.items ++ number ∷ [] }
    ensures room { vec_capacity numbers.old ≤ vec_capacity numbers.new }
{
    numbers.push(number).unwrap();
}

impl Link for MemLink {
    ghost state = { λ l. link_state l };

    fn read(&mut self, buf: &mut [u8]) -> Got
        requires { 0 < length buf.old }
        // What every link promises.
        ensures within { GivesWithin result buf.new }
        ensures bytes { self.old.reads.left ≡ given result buf.new ++ self.new.reads.left }
        ensures faults { CountsFault result (link_state self.old).faults (link_state self.new).faults }
        ensures idles { self.new.reads.idled ≡ idles_after result self.old.reads.idled }
        ensures pauses { self.new.pauses ≡ pauses_after result self.old.pauses }
        ensures end { result ≡ Got.End → self.new.reads.left ≡ [] }
        ensures ended { result ≡ Got.End → self.new.reads.ended ≡ true }
        ensures only_end { EndsOnly result (self.old.reads.ended ≡ true) (self.new.reads.ended ≡ true) }
        ensures stays { self.old.reads.ended ≡ true → result ≡ Got.End }

        // The whole result, and the state afterwards.
        ensures answer { result ≡ read_answer self.old.reads (length buf.old) }
        ensures after { self.new.reads ≡ after_read self.old.reads result }
        ensures buffer { buf.new ≡ buffer_after result self.old.reads.left buf.old }
        ensures writes { self.new.writes ≡ self.old.writes }
    {
        let got = self.source.read(buf);
        match got {
            Got::Bytes(count) => self.given += count,
            Got::Idle => keep(&mut self.pauses, self.given),
            Got::End => {}
            Got::Failed => {}
        }
        got
    }

    fn write(&mut self, bytes: &[u8]) -> Put
        requires { 0 < length bytes.now }
        // What every link promises.
        ensures within { TakesWithin result bytes.now }
        ensures bytes { self.new.writes.sent ≡ self.old.writes.sent ++ taken result bytes.now }
        ensures faults { CountsRefusal result (link_state self.old).faults (link_state self.new).faults }

        // The whole result, and the state afterwards.
        ensures answer { result ≡ write_answer self.old.writes (length bytes.now) }
        ensures after { self.new ≡ record self.old { writes = after_write self.old.writes result bytes.now } }
    {
        self.sink.write(bytes)
    }

    fn sent(&self) -> &[u8]
        ensures { result.now ≡ self.now.writes.sent }
    {
        self.sink.sent()
    }
}
