// The last admitted timestamp of each stream.
ghost use Rattle.std.specs.Prelude.{◌≡◌, ◌<◌, ◌+◌, ◌==◌, ℕ, [], length, Some, None, IfOk, OnOk, OnErr, is_some};
ghost use Rattle.std.specs.Prelude.{if◌then◌else◌};
ghost use Rattle.mav_sign.specs.Kept.{Forgets, stream_number, stamp_at};

use crate::NoMemory;
use mav_names::Stream;
use std::alloc::Global;
use std::collections::HashMap;
use std::marker::Model;

/// The most streams of which a verifier keeps the last timestamp.
pub(crate) const STREAM_LIMIT: usize = 256;

/// A minute in units of 10 microseconds: a frame may be older by so much.
pub(crate) const ONE_MINUTE: u64 = 6_000_000;

/// The last timestamps by the streams' numbers, with room for the most streams. Contracts see the pairs of
/// number and timestamp, in some order.
#[derive(Drop)]
pub(crate) struct Table {
    by_stream: HashMap<u32, u64>,
}

impl Model for Table {
    ghost use Rattle.std.specs.Prelude.{ℕ, ◌≤◌, ◌+◌, List};
    ghost use Rattle.std.specs.HashMap.{spare, hash_map_len};

    ghost Value = { List (ℕ × ℕ) };

    ghost view = { λ t. t.by_stream.entries };

    ghost invariant = { λ t. 256 ≤ hash_map_len t.by_stream + spare t.by_stream };
}

fn number_of(stream: Stream) -> u32
    ensures { result ≡ stream_number stream }
{
    u32::from(stream.sys) * 65536 + u32::from(stream.comp) * 256 + u32::from(stream.link)
}

impl Table {
    pub(crate) fn new(alloc: Global) -> Result<Table, NoMemory>
        ensures { IfOk result (λ table. table ≡ []) }
    {
        let by_stream = HashMap::with_capacity(alloc, STREAM_LIMIT)?;
        Ok(Table { by_stream })
    }

    pub(crate) fn get(&self, stream: Stream) -> Option<u64>
        ensures { result ≡ stamp_at (stream_number stream) self.now }
    {
        self.by_stream.get(&number_of(stream)).copied()
    }

    pub(crate) fn count(&self) -> usize
        ensures { result ≡ length self.now }
    {
        self.by_stream.len()
    }

    /// Keeps a timestamp as the last of its stream.
    pub(crate) fn put(&mut self, stream: Stream, stamp: u64)
        requires { stamp_at (stream_number stream) self.old ≡ None → length self.old < 256 }
        ensures last { (number : ℕ) → stamp_at number self.new
            ≡ (if stream_number stream == number then Some stamp else stamp_at number self.old) }
        ensures count { length self.new
            ≡ (if is_some (stamp_at (stream_number stream) self.old) then length self.old else length self.old + 1) }
    {
        let number = number_of(stream);
        if let Some(last) = self.by_stream.get_mut(&number) {
            *last = stamp;
            return;
        }
        let inserted: Result<_, _> = self.by_stream.insert(number, stamp);
        let _none = inserted.unwrap();
    }

    /// Forgets each stream whose last timestamp is more than a minute before this one. Without memory nothing changes.
    pub(crate) fn forget(&mut self, accepted: u64) -> Result<(), NoMemory>
        ensures forgets { OnOk result (Forgets accepted self.old self.new) }
        ensures unchanged { OnErr result (self.new ≡ self.old) }
    {
        let low = accepted.saturating_sub(ONE_MINUTE);
        // So that there is room for as many streams once some are gone.
        self.by_stream.reserve(STREAM_LIMIT)?;
        self.by_stream.retain(|_, last| low <= *last);
        Ok(())
    }
}
