// What a link over memory gave and took.
ghost use Rattle.std.specs.Prelude.{◌≡◌, ◌+◌, ◌-◌, ◌++◌, ◌∷◌, ◌<◌, ◌≤◌, [], length, vec_len, vec_capacity, IfOk};
ghost use Rattle.relay_hub.specs.Hubs.{blank};

use crate::NoMemory;
use std::alloc::Global;
use std::marker::Model;

/// A link gives at most so many bytes, and takes at most so many.
const MOST_BYTES: usize = 65_536;

/// The bytes that a link gave, and those that it took.
pub(crate) struct MemTape {
    port: u8,
    given: Vec<u8>,
    taken: Vec<u8>,
}

// By hand, so that whoever drops it proves one call.
impl Drop for MemTape {
    fn drop(self) {
        let MemTape {
            port: _,
            given: _given,
            taken: _taken,
        } = self;
    }
}

impl Model for MemTape {
    ghost use Rattle.std.specs.Prelude.{◌≤◌, vec_len, vec_capacity};
    ghost use Rattle.relay_hub.specs.Hubs.{Tape};

    ghost Value = { Tape };

    ghost view = { λ t. record { port = t.port; given = t.given.items; taken = t.taken.items } };

    ghost invariant = { λ t. (vec_len t.given ≤ 65536) × (65536 ≤ vec_capacity t.given)
        × (vec_len t.taken ≤ 65536) × (65536 ≤ vec_capacity t.taken) };
}

impl MemTape {
    /// Of no link. Allocates all its memory.
    pub(crate) fn new(alloc: Global) -> Result<MemTape, NoMemory>
        ensures { IfOk result (λ tape. tape ≡ blank 0) }
    {
        let given = Vec::with_capacity(alloc, MOST_BYTES)?;
        let taken = Vec::with_capacity(alloc, MOST_BYTES)?;
        Ok(MemTape {
            port: 0,
            given,
            taken,
        })
    }

    /// Of a link that has just opened at this port.
    pub(crate) fn begin(&mut self, port: u8)
        ensures { self.new ≡ blank port }
    {
        self.port = port;
        self.given.clear();
        self.taken.clear();
    }

    pub(crate) fn port(&self) -> u8
        ensures { result ≡ self.now.port }
    {
        self.port
    }

    /// How many bytes more it may give.
    pub(crate) fn left_to_give(&self) -> usize
        ensures left { result ≡ 65536 - length self.now.given }
        ensures room { length self.now.given + result ≤ 65536 }
    {
        MOST_BYTES - self.given.len()
    }

    /// How many bytes more it may take.
    pub(crate) fn left_to_take(&self) -> usize
        ensures left { result ≡ 65536 - length self.now.taken }
        ensures room { length self.now.taken + result ≤ 65536 }
    {
        MOST_BYTES - self.taken.len()
    }

    /// It gives these bytes.
    pub(crate) fn give(&mut self, bytes: &[u8])
        requires { length self.old.given + length bytes.now ≤ 65536 }
        ensures { self.new ≡ record self.old { given = self.old.given ++ bytes.now } }
    {
        self.given.extend_from_slice(bytes).unwrap();
    }

    /// It takes these bytes.
    pub(crate) fn take(&mut self, bytes: &[u8])
        requires { length self.old.taken + length bytes.now ≤ 65536 }
        ensures { self.new ≡ record self.old { taken = self.old.taken ++ bytes.now } }
    {
        self.taken.extend_from_slice(bytes).unwrap();
    }
}

/// Tapes for so many links.
pub(crate) fn spare_tapes(alloc: Global, count: usize) -> Result<Vec<MemTape>, NoMemory>
    ensures { IfOk result (λ tapes. vec_len tapes ≡ count) }
{
    let mut tapes = Vec::with_capacity(alloc, count)?;
    for _tape in 0..count {
        let tape = MemTape::new(alloc)?;
        tapes.push_reserved(tape);
    }
    Ok(tapes)
}

/// A link opens, the last one, with the next number, and has given these bytes.
pub(crate) fn open(
    tapes: &mut Vec<MemTape>,
    spares: &mut Vec<MemTape>,
    links: &mut Vec<usize>,
    port: u8,
    given: &[u8],
)
    requires spare { 0 < vec_len spares.old }
    requires room { vec_len tapes.old < vec_capacity tapes.old }
    requires few { vec_len links.old < vec_capacity links.old }
    requires short { length given.now ≤ 65536 }
    ensures tapes { tapes.new.items ≡ tapes.old.items ++ record (blank port) { given = given.now } ∷ [] }
    ensures links { links.new.items ≡ links.old.items ++ (vec_len tapes.old + 1) ∷ [] }
    ensures spares { vec_len spares.new + 1 ≡ vec_len spares.old }
    ensures tape_room { vec_capacity tapes.new ≡ vec_capacity tapes.old }
    ensures link_room { vec_capacity links.new ≡ vec_capacity links.old }
{
    let number = tapes.len() + 1;
    let mut tape = spares.pop().unwrap();
    tape.begin(port);
    tape.give(given);
    tapes.push_reserved(tape);
    links.push_reserved(number);
}
