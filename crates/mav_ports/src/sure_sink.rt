// A sink over memory that fails only if no room is left.
ghost use Rattle.std.specs.Prelude.{◌≡◌, ◌<◌, ◌++◌, Some, [], length, IfOk};
ghost use Rattle.mav_ports.specs.Puts.{taken, TakesWithin, CountsRefusal};
ghost use Rattle.mav_ports.specs.SureWrites.{sure_put, after_sure_write};

use crate::{NoMemory, Put, Sink};
use std::alloc::Global;
use std::marker::Model;

/// A sink that keeps in memory what it is sent, and takes as much as fits.
#[derive(Drop)]
pub struct SureSink {
    sent: Vec<u8>,
    room: usize,
    faults: u64,
}

impl Model for SureSink {
    ghost use Rattle.std.specs.Prelude.{◌≤◌, vec_len, vec_capacity};
    ghost use Rattle.mav_ports.specs.SureWrites.{SureWrites};

    ghost Value = { SureWrites };

    ghost view = { λ s. record { sent = s.sent.items; room = s.room; faults = s.faults } };

    ghost invariant = { λ s. (vec_len s.sent ≤ s.room) × (s.room ≤ vec_capacity s.sent) };
}

impl SureSink {
    /// It has room for this many bytes, which it allocates here.
    pub fn with_room(alloc: Global, bytes: usize) -> Result<SureSink, NoMemory>
        ensures start { IfOk result (λ sink. sink ≡ record { sent = []; room = bytes; faults = 0 }) }
        ensures sent { IfOk result (λ sink. ⟦<SureSink as Sink>⟧.sent sink ≡ Some []) }
        ensures faults { IfOk result (λ sink. ⟦<SureSink as Sink>⟧.faults sink ≡ 0) }
    {
        Ok(SureSink {
            sent: Vec::with_capacity(alloc, bytes)?,
            room: bytes,
            faults: 0,
        })
    }

    /// What it was sent.
    pub fn sent(&self) -> &[u8]
        ensures { ⟦<SureSink as Sink>⟧.sent self.now ≡ Some result.now }
    {
        &self.sent
    }
}

impl Sink for SureSink {
    ghost sent = { λ s. Some s.sent };

    ghost faults = { λ s. s.faults };

    fn write(&mut self, bytes: &[u8]) -> Put
        requires { 0 < length bytes.now }
        // What every sink promises.
        ensures within { TakesWithin result bytes.now }
        ensures bytes { self.new.sent ≡ self.old.sent ++ taken result bytes.now }
        ensures faults { CountsRefusal result self.old.faults self.new.faults }

        // The whole result, and the state afterwards.
        ensures answer { result ≡ sure_put self.old (length bytes.now) }
        ensures after { self.new ≡ after_sure_write self.old result bytes.now }
    {
        let count = (self.room - self.sent.len()).min(bytes.len());
        if count == 0 {
            self.faults = self.faults.saturating_add(1);
            return Put::Failed;
        }
        self.sent.extend_from_slice(&bytes[..count]).unwrap();
        Put::Took(count)
    }
}
