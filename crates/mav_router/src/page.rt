// Entries of a journal, one after another.
ghost use Rattle.std.specs.Prelude.{◌≡◌, ◌<◌, ◌≤◌, ℕ, List, [], length, take, slice_get, Some, true};
ghost use Rattle.link_table.specs.Routing.{has_port};
ghost use Rattle.mav_router.specs.declared.entries.Entry.{Entry};
ghost use Rattle.mav_router.specs.Journal.{frames_to};
ghost use Rattle.mav_router.specs.Outgoing.{IsRun, SpansRun};
ghost use Rattle.mav_router.specs.Pages.{outcome_of};
ghost use Rattle.mav_router.specs.Spans.{AreHeld, entries_of};

use crate::entries::Outcome;
use crate::spans::{Span, bytes_in, frame_in};
use mav_frame::RawFrame;
use std::alloc::Global;
use std::marker::Model;

// An entry without the bytes of its frame.
#[derive(Clone, Copy)]
pub(crate) struct Head {
    pub(crate) span: Span,
    pub(crate) outcome: Outcome,
}

/// Entries, which contracts see as their list. Their frames are kept as the bytes that came in, one after another.
#[derive(Drop)]
pub(crate) struct Page {
    bytes: Vec<u8>,
    heads: Vec<Head>,
    is_copied: bool,
}

/// The bytes of frames that stand together, and whether they were copied on their way here.
#[derive(Clone, Copy)]
pub(crate) struct Run<'a> {
    pub(crate) bytes: &'a [u8],
    pub(crate) is_copied: bool,
}

impl Model for Page {
    ghost use Rattle.std.specs.Prelude.{List};
    ghost use Rattle.mav_router.specs.declared.entries.Entry.{Entry};
    ghost use Rattle.mav_router.specs.Spans.{entries_of, AreHeld};

    ghost Value = { List Entry };

    ghost view = { λ p. entries_of p.bytes.items p.heads.items };

    ghost invariant = { λ p. AreHeld p.bytes.items p.heads.items };
}

fn head_at(heads: &[Head], index: usize) -> Head
    requires { index < length heads.now }
    ensures { slice_get heads.now index ≡ Some result }
{
    heads[index]
}

// The index of the first entry from one on that goes out at the port, or the number of entries.
fn first_to(heads: &[Head], port: u8, from: usize) -> usize
    requires from { 1 ≤ port }
    requires to { port ≤ 8 }
    requires within { from ≤ length heads.now }
    ensures from { from ≤ result }
    ensures within { result ≤ length heads.now }
    ensures none { (bytes : List ℕ)
        → frames_to port (take result (entries_of bytes heads.now)) ≡ frames_to port
        (take from (entries_of bytes heads.now)) }
    ensures goes { (head : Head) → slice_get heads.now result ≡ Some head → has_port head.outcome.ways port ≡ true }
{
    let mut index = from;
    while index < heads.len() {
        let head = head_at(heads, index);
        if head.outcome.ways.has(port) {
            return index;
        }
        index += 1;
    }
    index
}

// Where the frame of an entry stands that goes out at the port, with those after it that go out there too and stand
// together with it. `end` is set to the index after them.
fn run_at(heads: &[Head], port: u8, first: usize, end: &mut usize) -> Span
    requires from { 1 ≤ port }
    requires to { port ≤ 8 }
    requires there { first < length heads.now }
    requires goes { (head : Head) → slice_get heads.now first ≡ Some head → has_port head.outcome.ways port ≡ true }
    ensures moves { first < end.new }
    ensures within { end.new ≤ length heads.now }
    ensures run { (bytes : List ℕ) → AreHeld bytes heads.now → SpansRun port bytes heads.now first end.new result }
{
    let Head { mut span, .. } = head_at(heads, first);
    *end = first + 1;
    while *end < heads.len() {
        let Head {
            span: next,
            outcome,
        } = head_at(heads, *end);
        if next.start != span.end {
            return span;
        }
        if !outcome.ways.has(port) {
            return span;
        }
        span.end = next.end;
        *end += 1;
    }
    span
}

impl Page {
    /// The entries with these heads, whose frames stand in these bytes.
    pub(crate) fn of(bytes: Vec<u8>, heads: Vec<Head>, is_copied: bool) -> Page
        requires { AreHeld bytes.items heads.items }
        ensures { result ≡ entries_of bytes.items heads.items }
    {
        Page {
            bytes,
            heads,
            is_copied,
        }
    }

    pub(crate) fn new(alloc: Global) -> Page
        ensures { result ≡ [] }
    {
        Page {
            bytes: Vec::new(alloc),
            heads: Vec::new(alloc),
            is_copied: true,
        }
    }

    pub(crate) fn len(&self) -> usize
        ensures { result ≡ length self.now }
    {
        self.heads.len()
    }

    /// What became of the frame of the entry at an index, from 0, and the frame.
    #[inline]
    pub(crate) fn look(&self, index: usize) -> (Outcome, RawFrame<'_>)
        requires { index < length self.now }
        ensures { (entry : Entry) → slice_get self.now index ≡ Some entry → result ≡ (outcome_of entry, entry.frame) }
    {
        let head = head_at(&self.heads, index);
        (head.outcome, frame_in(&self.bytes, head.span))
    }

    /// The bytes of frames that go out at the port, of the entries from `at` on: of the next one, and of those after
    /// it that stand together with it. Moves `at` past the entries that were looked through.
    pub(crate) fn run(&self, port: u8, at: &mut usize) -> Run<'_>
        requires from { 1 ≤ port }
        requires to { port ≤ 8 }
        requires within { at.old ≤ length self.now }
        ensures within { at.new ≤ length self.now }
        ensures moves { at.old < length self.now → at.old < at.new }
        ensures run { IsRun port self.now at.old at.new result.bytes.now }
    {
        let first = first_to(&self.heads, port, *at);
        if first == self.heads.len() {
            *at = first;
            return Run {
                bytes: &[],
                is_copied: false,
            };
        }
        let span = run_at(&self.heads, port, first, at);
        Run {
            bytes: bytes_in(&self.bytes, span),
            is_copied: self.is_copied,
        }
    }
}
