// The scanners of the open links.
ghost use Rattle.std.specs.Prelude.{◌≡◌, ◌+◌, ◌<◌, ◌≤◌, ◌++◌, ◌∷◌, [], length, slice_get, slice_set, IfOk, Some};
ghost use Rattle.std.specs.Prelude.{vec_len, vec_capacity};
ghost use Rattle.std.specs.List.{remove};
ghost use Rattle.mav_profile.specs.Messages.{extras_of};
ghost use Rattle.mav_stream.specs.Held.{Held, nothing_held};
ghost use Rattle.mav_stream.specs.Spans.{first_packet, next_span, IsNextSpan};
ghost use Rattle.link_table.specs.Routing.{has_port};
ghost use Rattle.relay_core.specs.Scans.{FeedsAt, consumed};

use crate::NoMemory;
use mav_frame::RawFrame;
use mav_router::RouterRules;
use mav_stream::{NextSpan, Scanner};
use std::alloc::Global;
use std::marker::Model;

// At most so many links are open at once.
const LINK_LIMIT: usize = 32;

/// A scanner for each of the links that are open, in the order of their opening.
pub(crate) struct Scanners {
    list: Vec<Scanner>,
}

// By hand, so that whoever drops them proves one call.
impl Drop for Scanners {
    fn drop(self) {
        let Scanners { list: _list } = self;
    }
}

impl Model for Scanners {
    ghost use Rattle.std.specs.Prelude.{List, ◌≤◌, vec_len, vec_capacity};
    ghost use Rattle.mav_stream.specs.Held.{Held};

    ghost Value = { List Held };

    ghost view = { λ s. s.list.items };

    ghost invariant = { λ s. (vec_len s.list ≤ 32) × (32 ≤ vec_capacity s.list) };
}

fn add(list: &mut Vec<Scanner>, scanner: Scanner)
    requires { vec_len list.old < vec_capacity list.old }
    ensures items { list.new.items ≡ list.old.items ++ scanner ∷ [] }
    ensures len { vec_len list.new ≡ vec_len list.old + 1 }
    ensures room { vec_capacity list.old ≤ vec_capacity list.new }
{
    let pushed: Result<_, _> = list.push(scanner);
    pushed.unwrap();
}

// A scanner takes bytes.
fn feed_at(list: &mut Vec<Scanner>, at: usize, bytes: &[u8]) -> usize
    requires within { at < vec_len list.old }
    ensures feeds { (held : Held) → slice_get list.old.items at ≡ Some held
        → FeedsAt at held bytes.now result list.old.items list.new.items }
    ensures count { vec_len list.new ≡ vec_len list.old }
    ensures room { vec_capacity list.new ≡ vec_capacity list.old }
{
    list[at].feed(bytes)
}

// So many bytes at the start of a scanner's were seen.
fn consume_at(list: &mut Vec<Scanner>, at: usize, count: usize)
    requires within { at < vec_len list.old }
    requires count { (held : Held) → slice_get list.old.items at ≡ Some held → count ≤ length held.bytes }
    ensures held { (held : Held) → slice_get list.old.items at ≡ Some held
        → list.new.items ≡ slice_set list.old.items at (consumed count held) }
    ensures count { vec_len list.new ≡ vec_len list.old }
    ensures room { vec_capacity list.new ≡ vec_capacity list.old }
{
    list[at].consume(count);
}

impl Scanners {
    /// No link is open. Allocates room for 32.
    pub(crate) fn new(alloc: Global) -> Result<Scanners, NoMemory>
        ensures { IfOk result (λ s. s ≡ []) }
    {
        let list = Vec::with_capacity(alloc, LINK_LIMIT)?;
        Ok(Scanners { list })
    }

    /// A scanner for a link of that port, of which nothing is held.
    pub(crate) fn make(&self, rules: &RouterRules<'_>, port: u8) -> Result<Scanner, NoMemory>
        requires from { 1 ≤ port }
        requires to { port ≤ 8 }
        ensures { IfOk result (λ s. s ≡ nothing_held (extras_of rules.now.known) (has_port rules.now.plain port)) }
    {
        let alloc = *self.list.allocator();
        let extras = rules.known.extras().copy()?;
        Scanner::new(alloc, extras, rules.plain().has(port))
    }

    /// A link opens, the last one, with that scanner.
    pub(crate) fn open(&mut self, scanner: Scanner)
        requires { length self.old < 32 }
        ensures { self.new ≡ self.old ++ scanner ∷ [] }
    {
        add(&mut self.list, scanner);
    }

    /// The link with that index closes, and what was held of it is forgotten.
    pub(crate) fn close(&mut self, index: usize)
        requires { index < length self.old }
        ensures { self.new ≡ remove self.old index }
    {
        let _scanner = self.list.remove(index);
    }

    /// The scanner of that link takes as many bytes as fit, and returns how many.
    pub(crate) fn feed(&mut self, index: usize, bytes: &[u8]) -> usize
        requires { index < length self.old }
        ensures feeds { (held : Held) → slice_get self.old index ≡ Some held
            → FeedsAt index held bytes.now result self.old self.new }
        ensures count { length self.new ≡ length self.old }
    {
        feed_at(&mut self.list, index, bytes)
    }

    /// What is at the start of the bytes that it holds.
    pub(crate) fn next_span(&self, index: usize) -> NextSpan
        requires { index < length self.now }
        ensures { (held : Held) → slice_get self.now index ≡ Some held → IsNextSpan held result }
    {
        self.list[index].next_span()
    }

    /// The frame at their start, if `next_span` says that one of that length is there.
    pub(crate) fn raw_frame(&self, index: usize, size: usize) -> RawFrame<'_>
        requires within { index < length self.now }
        requires frame { (held : Held) → slice_get self.now index ≡ Some held → next_span held ≡ NextSpan.Frame size }
        ensures { (held : Held) → slice_get self.now index ≡ Some held → result ≡ first_packet held }
    {
        self.list[index].raw_frame(size)
    }

    /// So many of them were seen.
    pub(crate) fn consume(&mut self, index: usize, count: usize)
        requires within { index < length self.old }
        requires count { (held : Held) → slice_get self.old index ≡ Some held → count ≤ length held.bytes }
        ensures held { (held : Held) → slice_get self.old index ≡ Some held
            → self.new ≡ slice_set self.old index (consumed count held) }
        ensures count { length self.new ≡ length self.old }
    {
        consume_at(&mut self.list, index, count);
    }
}
