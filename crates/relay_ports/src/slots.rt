// What is known of each open link beside its end.

use relay_hub::Why;
use std::alloc::{AllocError, Global};
use std::time::Duration;

#[derive(Clone, Copy)]
struct Slot {
    // Bytes may be there.
    is_ready: bool,
    // All of its file was read.
    is_read: bool,
    ended: Option<Why>,
    heard: Duration,
}

const UNUSED: Slot = Slot {
    is_ready: false,
    is_read: false,
    ended: None,
    heard: Duration::ZERO,
};

/// By the numbers of slots. What is said of a number that is none is dropped.
#[derive(Drop)]
pub(crate) struct Slots {
    list: Vec<Slot>,
}

impl Slots {
    pub(crate) fn new(alloc: Global, count: usize) -> Result<Slots, AllocError> {
        let list = vec![in alloc; UNUSED; count]?;
        Ok(Slots { list })
    }

    fn slot(&self, at: usize) -> Slot {
        match self.list.get(at) {
            Some(slot) => *slot,
            None => UNUSED,
        }
    }

    fn set(&mut self, at: usize, slot: Slot) {
        if at < self.list.len() {
            self.list[at] = slot;
        }
    }

    /// A link has just opened.
    pub(crate) fn begin(&mut self, at: usize, now: Duration) {
        self.set(
            at,
            Slot {
                is_ready: true,
                is_read: false,
                ended: None,
                heard: now,
            },
        );
    }

    /// Whether bytes may be there, and it hasn't ended.
    pub(crate) fn is_ready(&self, at: usize) -> bool {
        let slot = self.slot(at);
        slot.is_ready && slot.ended.is_none()
    }

    /// Bytes may be there, unless all of its file was read.
    pub(crate) fn wake(&mut self, at: usize) {
        let slot = self.slot(at);
        self.set(
            at,
            Slot {
                is_ready: !slot.is_read,
                ..slot
            },
        );
    }

    /// None are there now.
    pub(crate) fn rest(&mut self, at: usize) {
        let slot = self.slot(at);
        self.set(
            at,
            Slot {
                is_ready: false,
                ..slot
            },
        );
    }

    /// All of its file was read.
    pub(crate) fn read_whole(&mut self, at: usize) {
        let slot = self.slot(at);
        self.set(
            at,
            Slot {
                is_ready: false,
                is_read: true,
                ..slot
            },
        );
    }

    /// Its peer was heard.
    pub(crate) fn hear(&mut self, at: usize, now: Duration) {
        let slot = self.slot(at);
        self.set(at, Slot { heard: now, ..slot });
    }

    /// It is over, by the first reason that there was.
    pub(crate) fn end(&mut self, at: usize, why: Why) {
        let slot = self.slot(at);
        let ended = Some(slot.ended.unwrap_or(why));
        self.set(at, Slot { ended, ..slot });
    }

    pub(crate) fn ended(&self, at: usize) -> Option<Why> {
        self.slot(at).ended
    }

    /// Since when its peer is silent.
    pub(crate) fn heard(&self, at: usize) -> Duration {
        self.slot(at).heard
    }
}
