// The CRC_EXTRA byte of each message id, in an array for the low ids that most messages have.
ghost use Rattle.std.specs.Prelude.{◌≡◌, ◌<◌, ◌∷◌, ℕ, List, length, slice_index, None, IfOk};
ghost use Rattle.x25_check.specs.Extras.{extra_of};
ghost use Rattle.mav_stream.specs.Entries.{byte_of};

use crate::NoMemory;
use mav_frame::CrcExtras;
use std::alloc::Global;
use std::marker::Model;
use x25_check::Extras;

// How many ids have an entry of their own.
const LOW_IDS: usize = 65_536;

// The entry of an id that has no CRC_EXTRA.
const UNKNOWN: u16 = 256;

/// Contracts see the pairs of ids and bytes from which it was made.
#[derive(Drop)]
pub(crate) struct ExtrasTable {
    extras: Extras,
    low: Vec<u16>,
}

impl Model for ExtrasTable {
    ghost use Rattle.std.specs.Prelude.{◌≡◌, ◌<◌, List, ℕ, length, slice_index};
    ghost use Rattle.x25_check.specs.Extras.{extra_of};
    ghost use Rattle.mav_stream.specs.Entries.{byte_of};

    ghost Value = { List (ℕ × ℕ) };

    ghost view = { λ t. t.extras };

    ghost invariant = { λ t. (length t.low.items ≡ 65536)
        × ((id : ℕ) → id < 65536 → byte_of (slice_index t.low.items id) ≡ extra_of id t.extras) };
}

// What an entry represents.
#[inline(always)]
fn extra_in(entry: u16) -> Option<u8>
    ensures { result ≡ byte_of entry }
{
    if entry < UNKNOWN {
        Some(entry as u8)
    } else {
        None
    }
}

// Writes the entry of a pair's id, if it has one.
#[inline(always)]
fn put(low: &mut [u16], pair: (u32, u8))
    requires { length low.old ≡ 65536 }
    ensures length { length low.new ≡ 65536 }
    ensures entries { (id : ℕ) (pairs : List (ℕ × ℕ)) → id < 65536
        → byte_of (slice_index low.old id) ≡ extra_of id pairs
        → byte_of (slice_index low.new id) ≡ extra_of id (pair ∷ pairs) }
{
    let (id, extra) = pair;
    let index = id as usize;
    if index < LOW_IDS {
        low[index] = u16::from(extra);
    }
}

// Writes the entries of all pairs, the last one first, so that of pairs with the same id the first one stands.
fn fill(low: &mut [u16], pairs: &[(u32, u8)])
    requires length { length low.old ≡ 65536 }
    requires unknown { (id : ℕ) → id < 65536 → byte_of (slice_index low.old id) ≡ None }
    ensures length { length low.new ≡ 65536 }
    ensures entries { (id : ℕ) → id < 65536 → byte_of (slice_index low.new id) ≡ extra_of id pairs.now }
{
    let mut left = pairs.len();
    while left > 0 {
        left -= 1;
        put(low, pairs[left]);
    }
}

impl ExtrasTable {
    pub(crate) fn new(alloc: Global, extras: Extras) -> Result<ExtrasTable, NoMemory>
        ensures { IfOk result (λ table. table ≡ extras) }
    {
        let mut low = vec![in alloc; UNKNOWN; LOW_IDS]?;
        fill(&mut low, extras.pairs());
        Ok(ExtrasTable { extras, low })
    }
}

impl CrcExtras for ExtrasTable {
    ghost pairs = { λ x. x };

    #[inline(always)]
    fn extra(&self, id: u32) -> Option<u8> {
        let index = id as usize;
        if index < LOW_IDS {
            extra_in(self.low[index])
        } else {
            self.extras.get(id)
        }
    }
}
