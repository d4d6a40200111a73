// A source over a reader of the system.
ghost use Rattle.std.specs.Prelude.{◌≡◌, ◌<◌, [], None, IsTrue, IsSome, IsNone, length};
ghost use Rattle.mav_ports.specs.Gets.{given, GivesWithin, CountsFault, idles_after, EndsOnly, left_in};
ghost use Rattle.std.specs.Io.KnownBytes.{Consumes};
ghost use Rattle.std.specs.Option.{ForSome};

use crate::{Got, Source, read_once};
use std::io::Read;

/// A source over any reader. What is left isn't known, but each read gives what the reader did. It counts
/// each error of the reader as a fault, and never idles. Over no reader, as for a file that couldn't be opened, each
/// read fails.
#[derive(Drop)]
pub struct StdSource<R: Read + Drop> {
    reader: Option<R>,
    faults: u64,
    ended: bool,
    ghost opened: { IsTrue ended → IsSome reader },
    ghost at_end: { IsTrue ended → ForSome (left_in R.remaining reader) (λ bytes. bytes ≡ []) },
}

impl<R: Read + Drop> StdSource<R> {
    pub fn new(reader: Option<R>) -> StdSource<R>
        ensures over { result.reader ≡ reader }
        ensures faults { ⟦<StdSource<R> as Source>⟧.faults result ≡ 0 }
        ensures open { ¬ ⟦<StdSource<R> as Source>⟧.has_ended result }
    {
        StdSource {
            reader,
            faults: 0,
            ended: false,
        }
    }
}

impl<R: Read + Drop> Source for StdSource<R> {
    ghost left = { λ s. None };

    ghost faults = { λ s. s.faults };

    ghost idles = { λ s. 0 };

    ghost has_ended = { λ s. IsTrue s.ended };

    fn read(&mut self, buf: &mut [u8]) -> Got
        requires { 0 < length buf.old }
        // What every source promises.
        ensures within { GivesWithin result buf.new }
        ensures faults { CountsFault result self.old.faults self.new.faults }
        ensures idles { 0 ≡ idles_after result 0 }
        ensures end { result ≡ Got.End → IsTrue self.new.ended }
        ensures only_end { EndsOnly result (IsTrue self.old.ended) (IsTrue self.new.ended) }
        ensures stays { IsTrue self.old.ended → result ≡ Got.End }

        // It gives exactly what the reader consumed, and ends only if the reader has nothing left.
        ensures consumed { Consumes (left_in R.remaining self.old.reader) (left_in R.remaining self.new.reader)
            (given result buf.new) }
        ensures spent { result ≡ Got.End → ForSome (left_in R.remaining self.new.reader) (λ bytes. bytes ≡ []) }

        // Over no reader each read fails.
        ensures unopened { IsNone self.old.reader → (result ≡ Got.Failed) × IsNone self.new.reader }
    {
        if self.ended {
            return Got::End;
        }
        let count = match &mut self.reader {
            Some(reader) => read_once(reader, buf).ok(),
            None => None,
        };
        match count {
            Some(0) => {
                self.ended = true;
                Got::End
            }
            Some(count) => Got::Bytes(count),
            None => {
                self.faults = self.faults.saturating_add(1);
                Got::Failed
            }
        }
    }
}
