// A sink over memory that fails at the calls that its maker lists.
ghost use Rattle.std.specs.Prelude.{◌≡◌, ◌<◌, ◌-◌, ◌++◌, Some, [], length, IfOk};
ghost use Rattle.mav_ports.specs.Puts.{taken, TakesWithin, CountsRefusal};
ghost use Rattle.mav_ports.specs.MemWrites.{writes_from_start, write_answer, after_write};

use crate::calls::{call_after, is_listed};
use crate::{NoMemory, Put, Sink};
use std::alloc::Global;
use std::marker::Model;

/// A sink that keeps in memory what it is sent.
#[derive(Drop)]
pub struct MemSink {
    sent: Vec<u8>,
    room: usize,
    chunk: usize,
    fails: Vec<u64>,
    call: Option<u64>,
    faults: u64,
}

impl Model for MemSink {
    ghost use Rattle.std.specs.Prelude.{◌<◌, ◌≤◌, vec_len, vec_capacity};
    ghost use Rattle.mav_ports.specs.MemWrites.{MemWrites};

    ghost Value = { MemWrites };

    ghost view = { λ s. record {
      sent = s.sent.items;
      room = s.room;
      chunk = s.chunk;
      fails = s.fails.items;
      call = s.call;
      faults = s.faults;
    } };

    ghost invariant = { λ s. (0 < s.chunk) × (vec_len s.sent ≤ s.room) × (s.room ≤ vec_capacity s.sent) };
}

impl MemSink {
    /// It has room for `room` bytes, which it allocates here, and takes at most `chunk`
    /// bytes a call. Calls are numbered from 0: it fails at those in `fails`.
    pub fn new(
        alloc: Global,
        room: usize,
        chunk: usize,
        fails: Vec<u64>,
    ) -> Result<MemSink, NoMemory>
        requires { 0 < chunk }
        ensures start { IfOk result (λ sink. sink ≡ writes_from_start room chunk fails.items) }
        ensures sent { IfOk result (λ sink. ⟦<MemSink as Sink>⟧.sent sink ≡ Some []) }
        ensures faults { IfOk result (λ sink. ⟦<MemSink as Sink>⟧.faults sink ≡ 0) }
    {
        Ok(MemSink {
            sent: Vec::with_capacity(alloc, room)?,
            room,
            chunk,
            fails,
            call: Some(0),
            faults: 0,
        })
    }

    /// What it was sent.
    pub fn sent(&self) -> &[u8]
        ensures { ⟦<MemSink as Sink>⟧.sent self.now ≡ Some result.now }
    {
        &self.sent
    }

    // What the next write returns, if `offered` bytes are given to it.
    fn answer(&self, offered: usize) -> Put
        ensures { result ≡ write_answer self.now offered }
    {
        let room = self.room - self.sent.len();
        if is_listed(&self.fails, self.call) || room == 0 {
            Put::Failed
        } else {
            Put::Took(room.min(self.chunk).min(offered))
        }
    }
}

impl Sink for MemSink {
    ghost sent = { λ s. Some s.sent };

    ghost faults = { λ s. s.faults };

    fn write(&mut self, bytes: &[u8]) -> Put
        requires { 0 < length bytes.now }
        // What every sink promises.
        ensures within { TakesWithin result bytes.now }
        ensures bytes { self.new.sent ≡ self.old.sent ++ taken result bytes.now }
        ensures faults { CountsRefusal result self.old.faults self.new.faults }

        // The whole result, and the state afterwards.
        ensures answer { result ≡ write_answer self.old (length bytes.now) }
        ensures after { self.new ≡ after_write self.old result bytes.now }
    {
        let put = self.answer(bytes.len());
        self.call = call_after(self.call);
        match put {
            Put::Took(count) => self.sent.extend_from_slice(&bytes[..count]).unwrap(),
            Put::Failed => self.faults = self.faults.saturating_add(1),
        }
        put
    }
}
