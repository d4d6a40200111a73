// A page that never changes again.
ghost use Rattle.std.specs.Prelude.{◌≡◌, ◌≤◌, ◌<◌, ◌+◌, List, length, slice_get, Some, IfSome, IfOk, IfErr};
ghost use Rattle.mav_router.specs.declared.entries.Entry.{Entry};
ghost use Rattle.mav_router.specs.Outgoing.{IsRun};
ghost use Rattle.mav_router.specs.Pages.{end_of_page, outcome_of, IsIn, StandsIn};

use crate::entries::Outcome;
use crate::page::{Page, Run};
use mav_frame::RawFrame;
use std::alloc::Global;
use std::marker::Model;
use std::sync::Arc;

/// A page of a journal that several threads may read, and how many entries are before it.
#[derive(Drop)]
pub(crate) struct SealedPage {
    start: usize,
    page: Arc<Page>,
}

impl Model for SealedPage {
    ghost use Rattle.std.specs.Prelude.{◌+◌, ◌≤◌, length};
    ghost use Rattle.std.specs.Arc.{arc_value};
    ghost use Rattle.mav_router.specs.PageState.{PageState};

    ghost Value = { PageState };

    ghost view = { λ s. record { start = s.start; entries = arc_value s.page } };

    ghost invariant = { λ s. s.start + length (arc_value s.page) ≤ 1000000 };
}

impl SealedPage {
    /// Seals a page, or gives it back if memory is out.
    pub(crate) fn new(alloc: Global, start: usize, page: Page) -> Result<SealedPage, Page>
        requires { start + length page ≤ 1_000_000 }
        ensures sealed { IfOk result (λ sealed. sealed ≡ record { start = start; entries = page }) }
        ensures same { IfErr result (λ same. same ≡ page) }
    {
        match Arc::new(alloc, page) {
            Ok(page) => Ok(SealedPage { start, page }),
            Err(failed) => Err(failed.value),
        }
    }

    /// The same page for another thread, but for a page that has as many owners as can be counted.
    pub(crate) fn share(&self) -> Option<SealedPage>
        ensures { IfSome result (λ shared. shared ≡ self.now) }
    {
        match Arc::try_clone(&self.page) {
            Ok(page) => Some(SealedPage {
                start: self.start,
                page,
            }),
            Err(_) => None,
        }
    }

    pub(crate) fn start(&self) -> usize
        ensures { result ≡ self.now.start }
    {
        self.start
    }

    pub(crate) fn len(&self) -> usize
        ensures { result ≡ length self.now.entries }
    {
        self.page.len()
    }

    /// How many entries are in it and before it.
    pub(crate) fn end(&self) -> usize
        ensures { result ≡ end_of_page self.now }
    {
        self.start + self.page.len()
    }

    /// What became of the frame of the entry at an index in the page, and the frame.
    #[inline]
    pub(crate) fn look(&self, at: usize) -> (Outcome, RawFrame<'_>)
        requires { at < length self.now.entries }
        ensures { (entry : Entry) → slice_get self.now.entries at ≡ Some entry
            → result ≡ (outcome_of entry, entry.frame) }
    {
        self.page.look(at)
    }

    /// The same as [`Page::run`], by the indices of the journal.
    pub(crate) fn run(&self, port: u8, from: &mut usize) -> Run<'_>
        requires from { 1 ≤ port }
        requires to { port ≤ 8 }
        requires inside { IsIn self.now from.old }
        ensures within { from.new ≤ end_of_page self.now }
        ensures moves { from.old < from.new }
        ensures run { (journal : List Entry) → StandsIn journal self.now
            → IsRun port journal from.old from.new result.bytes.now }
    {
        let mut at = *from - self.start;
        let run = self.page.run(port, &mut at);
        *from = self.start + at;
        run
    }
}
