// The journal of a router.
ghost use Rattle.std.specs.Prelude.{◌≡◌, ◌<◌, ◌≤◌, ◌+◌, ◌-◌, ◌++◌, [], List, length, replicate, slice_get, Some, All};
ghost use Rattle.std.specs.Prelude.{IfErr, OnOk, vec_len, vec_capacity};
ghost use Rattle.mav_router.specs.declared.entries.Entry.{Entry};
ghost use Rattle.mav_router.specs.Admitting.{IsAfter};
ghost use Rattle.mav_router.specs.Found.{Admits, IsJudged, packets_of};
ghost use Rattle.mav_router.specs.Faults.{IsSwitchFault};
ghost use Rattle.mav_router.specs.Outgoing.{IsRun};
ghost use Rattle.mav_router.specs.Pages.{entries_in_pages, outcome_of, AreIndexed, IsIn, IsWindow, StandsIn};

use crate::entries::Outcome;
use crate::found::FoundFrames;
use crate::moves::put_last;
use crate::page::{Page, Run};
use crate::sealed::SealedPage;
use crate::shared::SharedPages;
use crate::{Entry, NoMemory, RouterRules, SwitchFault};
use link_table::LinkTable;
use mav_frame::RawFrame;
use mav_sign::Stamps;
use std::alloc::Global;
use std::marker::Model;
use std::mem;

// A journal has at most so many entries.
pub(crate) const ENTRY_LIMIT: usize = 1_000_000;

/// The entries of a router, which contracts see as their list. They stand in pages: those that were sealed never
/// change again, so that other threads read them while the last one grows.
pub struct Journal {
    sealed: Vec<SealedPage>,
    // For each sealed entry the number of its page.
    page_of: Vec<u32>,
    last: Page,
    alloc: Global,
}

// By hand, so that whoever drops a journal proves one call.
impl Drop for Journal {
    fn drop(self) {
        let Journal {
            sealed: _sealed,
            page_of: _page_of,
            last: _last,
            alloc: _,
        } = self;
    }
}

impl Model for Journal {
    ghost use Rattle.std.specs.Prelude.{List, ◌+◌, ◌++◌, ◌≤◌, length};
    ghost use Rattle.mav_router.specs.declared.entries.Entry.{Entry};
    ghost use Rattle.mav_router.specs.Pages.{entries_in_pages, AreIndexed};

    ghost Value = { List Entry };

    ghost view = { λ j. entries_in_pages j.sealed.items ++ j.last };

    ghost invariant = { λ j. AreIndexed j.sealed.items j.page_of.items
        × (length j.page_of.items + length j.last ≤ 1000000) };
}

// Allocates room for one more page of so many entries.
fn reserve_page(
    sealed: &mut Vec<SealedPage>,
    page_of: &mut Vec<u32>,
    count: usize,
) -> Result<(), NoMemory>
    ensures sealed { sealed.new.items ≡ sealed.old.items }
    ensures page_of { page_of.new.items ≡ page_of.old.items }
    ensures room { OnOk result (vec_len sealed.new < vec_capacity sealed.new) }
    ensures entry_room { OnOk result (vec_len page_of.new + count ≤ vec_capacity page_of.new) }
{
    sealed.reserve(1)?;
    page_of.reserve(count)
}

// Appends the number of a page for each of its entries.
fn put_numbers(page_of: &mut Vec<u32>, number: u32, count: usize)
    requires { vec_len page_of.old + count ≤ vec_capacity page_of.old }
    ensures { page_of.new.items ≡ page_of.old.items ++ replicate count number }
{
    for at in 0..count {
        let _ = at;
        put_last(page_of, number);
    }
}

// The sealed page with this entry.
fn page_with<'a>(sealed: &'a [SealedPage], page_of: &[u32], index: usize) -> &'a SealedPage
    requires within { index < length page_of.now }
    requires indexed { AreIndexed sealed.now page_of.now }
    ensures inside { IsIn result.now index }
    ensures entry { (entry : Entry) → slice_get (entries_in_pages sealed.now) index ≡ Some entry
        → slice_get result.now.entries (index - result.now.start) ≡ Some entry }
    ensures stands { (last : List Entry) → StandsIn (entries_in_pages sealed.now ++ last) result.now }
{
    let number = page_of[index];
    &sealed[number as usize]
}

impl Journal {
    pub(crate) fn new(alloc: Global) -> Journal
        ensures { result ≡ [] }
    {
        Journal {
            sealed: Vec::new(alloc),
            page_of: Vec::new(alloc),
            last: Page::new(alloc),
            alloc,
        }
    }

    pub(crate) fn alloc(&self) -> Global {
        self.alloc
    }

    /// How many entries there are.
    pub fn len(&self) -> usize
        ensures { result ≡ length self.now }
    {
        self.page_of.len() + self.last.len()
    }

    /// What became of the frame of the entry at an index, from 0, and the frame.
    #[inline]
    pub fn look(&self, index: usize) -> (Outcome, RawFrame<'_>)
        requires { index < length self.now }
        ensures { (entry : Entry) → slice_get self.now index ≡ Some entry → result ≡ (outcome_of entry, entry.frame) }
    {
        let before = self.page_of.len();
        if index >= before {
            return self.last.look(index - before);
        }
        let sealed = page_with(&self.sealed, &self.page_of, index);
        sealed.look(index - sealed.start())
    }

    /// The frame of the entry at an index.
    pub fn frame(&self, index: usize) -> RawFrame<'_>
        requires { index < length self.now }
        ensures { (entry : Entry) → slice_get self.now index ≡ Some entry → result ≡ entry.frame }
    {
        let (_, frame) = self.look(index);
        frame
    }

    /// What became of it.
    pub fn outcome(&self, index: usize) -> Outcome
        requires { index < length self.now }
        ensures { (entry : Entry) → slice_get self.now index ≡ Some entry → result ≡ outcome_of entry }
    {
        let (outcome, _) = self.look(index);
        outcome
    }

    /// The entry at an index, from 0.
    pub fn entry(&self, index: usize) -> Entry
        requires { index < length self.now }
        ensures { slice_get self.now index ≡ Some result }
    {
        let (outcome, frame) = self.look(index);
        let Outcome { port, admit, ways } = outcome;
        Entry {
            port,
            frame: frame.to_frame(),
            admit,
            ways,
        }
    }

    /// The bytes of frames that go out at the port, of the entries from an index on: of the next one in a page, and of
    /// those after it that stand together with it. Moves the index past the entries that were looked through.
    pub(crate) fn run(&self, port: u8, from: &mut usize) -> Run<'_>
        requires from { 1 ≤ port }
        requires to { port ≤ 8 }
        requires within { from.old < length self.now }
        ensures within { from.new ≤ length self.now }
        ensures moves { from.old < from.new }
        ensures run { IsRun port self.now from.old from.new result.bytes.now }
    {
        let before = self.page_of.len();
        if *from < before {
            return page_with(&self.sealed, &self.page_of, *from).run(port, from);
        }
        let mut at = *from - before;
        let run = self.last.run(port, &mut at);
        *from = before + at;
        run
    }

    /// Appends entries of frames that were found at a port and judged by these rules, in their order, as many as there
    /// may be. They are a page of their own; so it takes none until those before it are sealed.
    pub(crate) fn admit_found(
        &mut self,
        rules: &RouterRules<'_>,
        stamps: &mut Stamps,
        table: &mut LinkTable,
        port: u8,
        found: &mut FoundFrames,
    ) -> Result<(), SwitchFault>
        requires from { 1 ≤ port }
        requires to { port ≤ table.old.ports }
        requires few { port ≤ 8 }
        requires some { 0 < length found.old }
        requires judged { All (IsJudged rules.now) found.old }
        requires ports { table.old.ports ≡ rules.now.ports }
        ensures admits { Admits result port self.old self.new (packets_of found.old) }
        ensures ports { table.new.ports ≡ rules.now.ports }
        ensures after { IsAfter rules.now stamps.old table.old self.old
            → IsAfter rules.now stamps.new table.new self.new }
        ensures few { length self.new ≤ 1_000_000 }
        ensures fault { IfErr result (λ fault. IsSwitchFault fault self.new) }
    {
        if self.last.len() > 0 {
            return Err(SwitchFault::NoMemory);
        }
        let all = found.len();
        let count = all.min(ENTRY_LIMIT - self.page_of.len());
        match found.admit(count, rules, stamps, table, port) {
            Ok(page) => self.last = page,
            Err(_) => return Err(SwitchFault::NoMemory),
        }
        if count < all {
            return Err(SwitchFault::Full { entries: 1_000_000 });
        }
        Ok(())
    }

    /// Seals the entries that were appended since the last time, so that they can be shared. If memory is out they
    /// stay as they are.
    pub(crate) fn seal(&mut self)
        ensures { self.new ≡ self.old }
    {
        let count = self.last.len();
        let Ok(()) = reserve_page(&mut self.sealed, &mut self.page_of, count) else {
            return;
        };
        let number = self.sealed.len();
        if count == 0 || number >= ENTRY_LIMIT {
            return;
        }
        let page = mem::replace(&mut self.last, Page::new(self.alloc));
        match SealedPage::new(self.alloc, self.page_of.len(), page) {
            Ok(sealed) => {
                put_numbers(&mut self.page_of, number as u32, count);
                put_last(&mut self.sealed, sealed);
            }
            Err(page) => self.last = page,
        }
    }

    /// Shares sealed pages from that of an index on, as many as there is room for, in place of what was shared.
    /// Returns whether no more are sealed.
    pub(crate) fn share(&self, from: usize, shared: &mut SharedPages) -> bool
        requires { from ≤ length self.now }
        ensures { IsWindow self.now from shared.new }
    {
        shared.clear();
        if from >= self.page_of.len() {
            return true;
        }
        shared.take(&self.sealed, self.page_of[from] as usize)
    }
}
