// Pages of a journal that a thread reads outside its turn.
ghost use Rattle.std.specs.Prelude.{◌≡◌, ◌≤◌, [], length, IfOk};
ghost use Rattle.mav_router.specs.Pages.{SharesFrom};

use crate::NoMemory;
use crate::moves::put_last;
use crate::sealed::SealedPage;
use std::alloc::Global;
use std::marker::Model;

// So many pages are shared at once.
const MOST_PAGES: usize = 64;

/// Sealed pages, one after another, at most 64. All memory is allocated at the start.
#[derive(Drop)]
pub(crate) struct SharedPages {
    pages: Vec<SealedPage>,
}

impl Model for SharedPages {
    ghost use Rattle.std.specs.Prelude.{◌≤◌, List, vec_capacity};
    ghost use Rattle.mav_router.specs.PageState.{PageState};

    ghost Value = { List PageState };

    ghost view = { λ s. s.pages.items };

    ghost invariant = { λ s. 64 ≤ vec_capacity s.pages };
}

impl SharedPages {
    pub(crate) fn new(alloc: Global) -> Result<SharedPages, NoMemory>
        ensures { IfOk result (λ shared. shared ≡ []) }
    {
        Ok(SharedPages {
            pages: Vec::with_capacity(alloc, MOST_PAGES)?,
        })
    }

    pub(crate) fn clear(&mut self)
        ensures { self.new ≡ [] }
    {
        self.pages.clear();
    }

    /// Shares pages from a number on, as many as there is room for, in place of those shared before. Returns whether
    /// there are no more.
    pub(crate) fn take(&mut self, sealed: &[SealedPage], from: usize) -> bool
        requires { from ≤ length sealed.now }
        ensures { SharesFrom sealed.now from self.new }
    {
        self.pages.clear();
        for number in from..sealed.len() {
            if self.pages.len() >= MOST_PAGES {
                return false;
            }
            let Some(page) = sealed[number].share() else {
                return true;
            };
            put_last(&mut self.pages, page);
        }
        true
    }

    pub(crate) fn pages(&self) -> &[SealedPage]
        ensures { result.now ≡ self.now }
    {
        &self.pages
    }
}
