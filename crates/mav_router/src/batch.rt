// Runs of frames that wait for a port, put together to be written at once.
ghost use Rattle.std.specs.Prelude.{◌≡◌, ◌≤◌, ◌+◌, ◌++◌, [], length, true, IfOk};

use crate::NoMemory;
use std::alloc::Global;
use std::marker::Model;

// How many bytes wait at most.
const MOST_BYTES: usize = 65_536;

/// Runs with so many bytes are written by themselves. A read finds fewer.
pub(crate) const LONG_RUN: usize = 8192;

/// The bytes of frames, one after another, at most 64 KiB. All memory is allocated at the start.
#[derive(Drop)]
pub(crate) struct Batch {
    bytes: Vec<u8>,
}

impl Model for Batch {
    ghost use Rattle.std.specs.Prelude.{ℕ, ◌≤◌, List, vec_capacity};

    ghost Value = { List ℕ };

    ghost view = { λ b. b.bytes.items };

    ghost invariant = { λ b. 65536 ≤ vec_capacity b.bytes };
}

impl Batch {
    pub(crate) fn new(alloc: Global) -> Result<Batch, NoMemory>
        ensures { IfOk result (λ batch. batch ≡ []) }
    {
        Ok(Batch {
            bytes: Vec::with_capacity(alloc, MOST_BYTES)?,
        })
    }

    pub(crate) fn bytes(&self) -> &[u8]
        ensures { result.now ≡ self.now }
    {
        &self.bytes
    }

    pub(crate) fn clear(&mut self)
        ensures { self.new ≡ [] }
    {
        self.bytes.clear();
    }

    /// Whether any run fits that isn't long.
    pub(crate) fn has_room(&self) -> bool
        ensures { result ≡ true → length self.now + 8192 ≤ 65536 }
    {
        self.bytes.len() <= MOST_BYTES - LONG_RUN
    }

    /// Appends a run, for which there is room.
    pub(crate) fn push(&mut self, run: &[u8])
        requires { length self.old + length run.now ≤ 65536 }
        ensures { self.new ≡ self.old ++ run.now }
    {
        self.bytes.extend_from_slice(run).unwrap();
    }
}
