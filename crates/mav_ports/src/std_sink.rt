// A sink over a writer of the system.
ghost use Rattle.std.specs.Prelude.{◌≡◌, ◌<◌, None, length};
ghost use Rattle.std.specs.Io.KnownBytes.{Appends};
ghost use Rattle.mav_ports.specs.Puts.{taken, TakesWithin, CountsRefusal};

use crate::{Put, Sink, write_once};
use std::io::Write;

/// A sink over any writer, which gets the bytes that are taken. It counts as a fault each error of the
/// writer and each write that takes none. It doesn't flush, so the writer must have no buffer.
#[derive(Drop)]
pub struct StdSink<W: Write + Drop> {
    writer: W,
    faults: u64,
}

impl<W: Write + Drop> StdSink<W> {
    pub fn new(writer: W) -> StdSink<W>
        ensures over { result.writer ≡ writer }
        ensures faults { ⟦<StdSink<W> as Sink>⟧.faults result ≡ 0 }
    {
        StdSink { writer, faults: 0 }
    }
}

impl<W: Write + Drop> Sink for StdSink<W> {
    ghost sent = { λ s. None };

    ghost faults = { λ s. s.faults };

    fn write(&mut self, bytes: &[u8]) -> Put
        requires { 0 < length bytes.now }
        // What every sink promises.
        ensures within { TakesWithin result bytes.now }
        ensures faults { CountsRefusal result self.old.faults self.new.faults }

        // The writer got exactly the bytes that were taken.
        ensures wrote { Appends (W.contents self.old.writer) (W.contents self.new.writer) (taken result bytes.now) }
    {
        match write_once(&mut self.writer, bytes) {
            Ok(count) if count > 0 => Put::Took(count),
            _ => {
                self.faults = self.faults.saturating_add(1);
                Put::Failed
            }
        }
    }
}
