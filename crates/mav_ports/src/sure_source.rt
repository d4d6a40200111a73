// An infallible source over memory.
ghost use Rattle.std.specs.Prelude.{◌≡◌, ◌<◌, ◌++◌, Some, IsTrue, false, length, []};
ghost use Rattle.mav_ports.specs.Gets.{given, GivesWithin, CountsFault, idles_after, EndsOnly};
ghost use Rattle.mav_ports.specs.MemReads.{buffer_after};
ghost use Rattle.mav_ports.specs.SureReads.{sure_answer, after_sure_read};

use crate::remaining::Remaining;
use crate::{Got, Source};
use std::marker::Model;

/// A source over bytes in memory that neither fails nor idles.
#[derive(Drop)]
pub struct SureSource {
    left: Remaining,
    ended: bool,
}

impl Model for SureSource {
    ghost use Rattle.std.specs.Prelude.{◌≡◌, [], IsTrue};
    ghost use Rattle.mav_ports.specs.SureReads.{SureReads};

    ghost Value = { SureReads };

    ghost view = { λ s. record { left = s.left; ended = s.ended } };

    ghost invariant = { λ s. IsTrue s.ended → s.left ≡ [] };
}

impl SureSource {
    pub fn new(bytes: Vec<u8>) -> SureSource
        ensures start { result ≡ record { left = bytes.items; ended = false } }
        ensures left { ⟦<SureSource as Source>⟧.left result ≡ Some bytes.items }
    {
        SureSource {
            left: Remaining::new(bytes),
            ended: false,
        }
    }
}

impl Source for SureSource {
    ghost left = { λ s. Some s.left };

    ghost faults = { λ s. 0 };

    ghost idles = { λ s. 0 };

    ghost has_ended = { λ s. IsTrue s.ended };

    fn read(&mut self, buf: &mut [u8]) -> Got
        requires { 0 < length buf.old }
        // What every source promises.
        ensures within { GivesWithin result buf.new }
        ensures bytes { self.old.left ≡ given result buf.new ++ self.new.left }
        ensures faults { CountsFault result 0 0 }
        ensures idles { 0 ≡ idles_after result 0 }
        ensures end { result ≡ Got.End → self.new.left ≡ [] }
        ensures ended { result ≡ Got.End → IsTrue self.new.ended }
        ensures only_end { EndsOnly result (IsTrue self.old.ended) (IsTrue self.new.ended) }
        ensures stays { IsTrue self.old.ended → result ≡ Got.End }

        // The whole result, and the state afterwards.
        ensures answer { result ≡ sure_answer self.old (length buf.old) }
        ensures after { self.new ≡ after_sure_read self.old result }
        ensures buffer { buf.new ≡ buffer_after result self.old.left buf.old }
    {
        let count = self.left.len().min(buf.len());
        if count == 0 {
            self.ended = true;
            return Got::End;
        }
        self.left.copy_out(&mut buf[..count]);
        Got::Bytes(count)
    }
}
