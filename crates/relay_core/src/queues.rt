// What waits for the links.
ghost use Rattle.std.specs.Prelude.{◌≡◌, ◌+◌, ◌<◌, ◌≤◌, ◌++◌, ◌∷◌, [], length, slice_get, slice_set, IfOk, OnOk};
ghost use Rattle.std.specs.Prelude.{OnErr, Some, vec_len, vec_capacity};
ghost use Rattle.std.specs.List.{remove};
ghost use Rattle.link_table.specs.OpenLinks.{has_link};
ghost use Rattle.relay_queue.specs.Queues.{next_bytes};
ghost use Rattle.relay_core.specs.Waitings.{WaitingState, WaitsAt, WaitsInPart, lost, nothing_waits, waits, wrote};

use crate::NoMemory;
use crate::waiting::Waiting;
use link_table::LinkSet;
use std::alloc::Global;
use std::marker::Model;

// At most so many links are open at once.
const LINK_LIMIT: usize = 32;

/// What waits for each of the links that are open, in the order of their opening.
pub struct Queues {
    list: Vec<Waiting>,
}

// By hand, so that whoever drops them proves one call.
impl Drop for Queues {
    fn drop(self) {
        let Queues { list: _list } = self;
    }
}

impl Model for Queues {
    ghost use Rattle.std.specs.Prelude.{List, ◌≤◌, vec_len, vec_capacity};
    ghost use Rattle.relay_core.specs.Waitings.{WaitingState};

    ghost Value = { List WaitingState };

    ghost view = { λ q. q.list.items };

    ghost invariant = { λ q. (vec_len q.list ≤ 32) × (32 ≤ vec_capacity q.list) };
}

fn add(list: &mut Vec<Waiting>, waiting: Waiting)
    requires { vec_len list.old < vec_capacity list.old }
    ensures items { list.new.items ≡ list.old.items ++ waiting ∷ [] }
    ensures len { vec_len list.new ≡ vec_len list.old + 1 }
    ensures room { vec_capacity list.old ≤ vec_capacity list.new }
{
    let pushed: Result<_, _> = list.push(waiting);
    pushed.unwrap();
}

// The frame waits at one link.
fn push_at(list: &mut Vec<Waiting>, at: usize, bytes: &[u8]) -> Result<(), NoMemory>
    requires within { at < vec_len list.old }
    requires some { 0 < length bytes.now }
    requires short { length bytes.now ≤ 280 }
    ensures queues { OnOk result ((waiting : WaitingState) → slice_get list.old.items at ≡ Some waiting
        → list.new.items ≡ slice_set list.old.items at (waits bytes.now waiting)) }
    ensures unchanged { OnErr result (list.new.items ≡ list.old.items) }
    ensures count { vec_len list.new ≡ vec_len list.old }
    ensures room { vec_capacity list.new ≡ vec_capacity list.old }
{
    list[at].push(bytes)?;
    Ok(())
}

// The frame waits at each link of the set; without memory at some of the first of them alone.
fn pass_on(list: &mut Vec<Waiting>, ways: LinkSet, bytes: &[u8]) -> Result<(), NoMemory>
    requires few { vec_len list.old ≤ 32 }
    requires some { 0 < length bytes.now }
    requires short { length bytes.now ≤ 280 }
    ensures queues { OnOk result (WaitsAt (length list.old.items)
        (has_link ways.bits) bytes.now list.old.items list.new.items) }
    ensures part { OnErr result (WaitsInPart (has_link ways.bits) bytes.now list.old.items list.new.items) }
    ensures count { vec_len list.new ≡ vec_len list.old }
    ensures room { vec_capacity list.new ≡ vec_capacity list.old }
{
    for at in 0..list.len() {
        if ways.has(at as u8) {
            push_at(list, at, bytes)?;
        }
    }
    Ok(())
}

// So many of the bytes to write next to a link were written.
fn wrote_at(list: &mut Vec<Waiting>, at: usize, count: usize)
    requires within { at < vec_len list.old }
    requires count { (waiting : WaitingState) → slice_get list.old.items at ≡ Some waiting
        → count ≤ length (next_bytes waiting.queue) }
    ensures queues { (waiting : WaitingState) → slice_get list.old.items at ≡ Some waiting
        → list.new.items ≡ slice_set list.old.items at (wrote count waiting) }
    ensures count { vec_len list.new ≡ vec_len list.old }
    ensures room { vec_capacity list.new ≡ vec_capacity list.old }
{
    list[at].wrote(count);
}

impl Queues {
    /// No link is open. Allocates room for 32.
    pub fn new(alloc: Global) -> Result<Queues, NoMemory>
        ensures { IfOk result (λ q. q ≡ []) }
    {
        let list = Vec::with_capacity(alloc, LINK_LIMIT)?;
        Ok(Queues { list })
    }

    /// A link opens, the last one, for which nothing waits.
    pub fn open(&mut self) -> Result<(), NoMemory>
        requires { length self.old < 32 }
        ensures queues { OnOk result (self.new ≡ self.old ++ nothing_waits ∷ []) }
        ensures unchanged { OnErr result (self.new ≡ self.old) }
    {
        let alloc = *self.list.allocator();
        let waiting = Waiting::new(alloc)?;
        add(&mut self.list, waiting);
        Ok(())
    }

    /// The link with that index closes, and nothing waits for it any more; each later link's index is one less.
    /// Returns how many of its frames were dropped, with those that weren't written to their ends.
    pub fn close(&mut self, index: usize) -> u64
        requires { index < length self.old }
        ensures queues { self.new ≡ remove self.old index }
        ensures dropped { (waiting : WaitingState) → slice_get self.old index ≡ Some waiting → result ≡ lost waiting }
    {
        let lost = self.list[index].lost();
        let _waiting = self.list.remove(index);
        lost
    }

    /// A frame waits at each link of the set; without memory at some of the first of them alone.
    pub fn pass_on(&mut self, ways: LinkSet, bytes: &[u8]) -> Result<(), NoMemory>
        requires some { 0 < length bytes.now }
        requires short { length bytes.now ≤ 280 }
        ensures queues { OnOk result (WaitsAt (length self.old) (has_link ways.bits) bytes.now self.old self.new) }
        ensures part { OnErr result (WaitsInPart (has_link ways.bits) bytes.now self.old self.new) }
        ensures count { length self.new ≡ length self.old }
    {
        pass_on(&mut self.list, ways, bytes)
    }

    /// The bytes to write next to the link with that index.
    pub fn next_bytes(&self, index: usize) -> &[u8]
        requires { index < length self.now }
        ensures { (waiting : WaitingState) → slice_get self.now index ≡ Some waiting
            → result.now ≡ next_bytes waiting.queue }
    {
        self.list[index].next_bytes()
    }

    /// So many of the bytes to write next to that link were written.
    pub fn wrote(&mut self, index: usize, count: usize)
        requires within { index < length self.old }
        requires count { (waiting : WaitingState) → slice_get self.old index ≡ Some waiting
            → count ≤ length (next_bytes waiting.queue) }
        ensures queues { (waiting : WaitingState) → slice_get self.old index ≡ Some waiting
            → self.new ≡ slice_set self.old index (wrote count waiting) }
        ensures count { length self.new ≡ length self.old }
    {
        wrote_at(&mut self.list, index, count);
    }

    /// How many links are open.
    pub fn len(&self) -> usize
        ensures { result ≡ length self.now }
    {
        self.list.len()
    }

    /// How many frames of that link were dropped.
    pub fn dropped(&self, index: usize) -> u64
        requires { index < length self.now }
        ensures { (waiting : WaitingState) → slice_get self.now index ≡ Some waiting → result ≡ waiting.dropped }
    {
        self.list[index].dropped()
    }
}
