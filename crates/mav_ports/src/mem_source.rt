// A source over memory that fails and idles at the calls that its maker lists.
ghost use Rattle.std.specs.Prelude.{◌≡◌, ◌<◌, ◌++◌, Some, IsTrue, length, []};
ghost use Rattle.mav_ports.specs.Gets.{given, GivesWithin, CountsFault, idles_after, EndsOnly};
ghost use Rattle.mav_ports.specs.MemReads.{reads_from_start, read_answer, after_read, buffer_after};

use crate::calls::{call_after, is_listed};
use crate::remaining::Remaining;
use crate::{Got, Source};
use std::marker::Model;

/// A source over bytes in memory.
#[derive(Drop)]
pub struct MemSource {
    left: Remaining,
    chunk: usize,
    fails: Vec<u64>,
    idles: Vec<u64>,
    call: Option<u64>,
    faults: u64,
    idled: u64,
    ended: bool,
}

impl Model for MemSource {
    ghost use Rattle.std.specs.Prelude.{◌≡◌, ◌<◌, [], IsTrue};
    ghost use Rattle.mav_ports.specs.MemReads.{MemReads};

    ghost Value = { MemReads };

    ghost view = { λ s. record {
      left = s.left;
      chunk = s.chunk;
      fails = s.fails.items;
      idles = s.idles.items;
      call = s.call;
      faults = s.faults;
      idled = s.idled;
      ended = s.ended;
    } };

    ghost invariant = { λ s. (0 < s.chunk) × (IsTrue s.ended → s.left ≡ []) };
}

impl MemSource {
    /// It gives at most `chunk` bytes a call. Calls are numbered from 0: it fails at those in
    /// `fails`, and idles at those in `idles` that aren't in `fails` too.
    pub fn new(bytes: Vec<u8>, chunk: usize, fails: Vec<u64>, idles: Vec<u64>) -> MemSource
        requires { 0 < chunk }
        ensures start { result ≡ reads_from_start bytes.items chunk fails.items idles.items }
        ensures left { ⟦<MemSource as Source>⟧.left result ≡ Some bytes.items }
        ensures faults { ⟦<MemSource as Source>⟧.faults result ≡ 0 }
        ensures idles { ⟦<MemSource as Source>⟧.idles result ≡ 0 }
    {
        MemSource {
            left: Remaining::new(bytes),
            chunk,
            fails,
            idles,
            call: Some(0),
            faults: 0,
            idled: 0,
            ended: false,
        }
    }

    // What the next read returns, into a buffer of `room` bytes.
    fn answer(&self, room: usize) -> Got
        ensures { result ≡ read_answer self.now room }
    {
        if self.ended {
            Got::End
        } else if is_listed(&self.fails, self.call) {
            Got::Failed
        } else if is_listed(&self.idles, self.call) {
            Got::Idle
        } else if self.left.len() == 0 {
            Got::End
        } else {
            Got::Bytes(self.left.len().min(self.chunk).min(room))
        }
    }
}

impl Source for MemSource {
    ghost left = { λ s. Some s.left };

    ghost faults = { λ s. s.faults };

    ghost idles = { λ s. s.idled };

    ghost has_ended = { λ s. IsTrue s.ended };

    fn read(&mut self, buf: &mut [u8]) -> Got
        requires { 0 < length buf.old }
        // What every source promises.
        ensures within { GivesWithin result buf.new }
        ensures bytes { self.old.left ≡ given result buf.new ++ self.new.left }
        ensures faults { CountsFault result self.old.faults self.new.faults }
        ensures idles { self.new.idled ≡ idles_after result self.old.idled }
        ensures end { result ≡ Got.End → self.new.left ≡ [] }
        ensures ended { result ≡ Got.End → IsTrue self.new.ended }
        ensures only_end { EndsOnly result (IsTrue self.old.ended) (IsTrue self.new.ended) }
        ensures stays { IsTrue self.old.ended → result ≡ Got.End }

        // The whole result, and the state afterwards.
        ensures answer { result ≡ read_answer self.old (length buf.old) }
        ensures after { self.new ≡ after_read self.old result }
        ensures buffer { buf.new ≡ buffer_after result self.old.left buf.old }
    {
        let got = self.answer(buf.len());
        match got {
            Got::Bytes(count) => self.left.copy_out(&mut buf[..count]),
            Got::Idle => self.idled = self.idled.saturating_add(1),
            Got::End => self.ended = true,
            Got::Failed => self.faults = self.faults.saturating_add(1),
        }
        self.call = call_after(self.call);
        got
    }
}
