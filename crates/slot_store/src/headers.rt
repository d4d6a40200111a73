// The headers of the two slots, and what they say.
ghost use Rattle.std.specs.Prelude.{◌≡◌, length};
ghost use Rattle.slot_store.specs.Layout.{start_of, next_generation, current, is_out_of_range, are_foreign, spare};
ghost use Rattle.slot_store.specs.Layout.{new_generation, header_of, with_header};

use crate::{Disk, DiskFault};

/// The bytes of a slot: its header, and up to 65,536 more.
pub(crate) const SLOT_BYTES: u64 = 65_546;

/// The bytes before those that a slot stores.
pub(crate) const HEADER_BYTES: u64 = 10;

/// The most bytes that a slot stores.
pub(crate) const MAX_STORED: u64 = 65_536;

/// The commit flag of an open slot; any other byte is a closed one.
pub(crate) const OPEN: u8 = 0xA5;

/// One of the two slots.
#[derive(Clone, Copy)]
pub(crate) enum Slot {
    First,
    Second,
}

impl Slot {
    /// The offset of its commit flag.
    pub(crate) fn start(self) -> u64
        ensures { result ≡ start_of self }
    {
        match self {
            Slot::First => 0,
            Slot::Second => SLOT_BYTES,
        }
    }
}

/// What a slot says of itself.
#[derive(Clone, Copy)]
pub(crate) struct Header {
    pub(crate) is_open: bool,
    pub(crate) generation: u8,
    pub(crate) length: u64,
}

impl Header {
    // No keeper writes such a header.
    fn is_out_of_range(&self) -> bool
        ensures { result ≡ is_out_of_range self.now }
    {
        self.is_open && (self.generation > 2 || self.length > MAX_STORED)
    }

    fn next_generation(&self) -> u8
        ensures { result ≡ next_generation self.now.generation }
    {
        if self.generation < 2 {
            self.generation + 1
        } else {
            0
        }
    }
}

/// The headers of both slots.
#[derive(Clone, Copy)]
pub(crate) struct Headers {
    pub(crate) first: Header,
    pub(crate) second: Header,
}

impl Headers {
    pub(crate) fn current(&self) -> Option<Slot>
        ensures { result ≡ current self.now }
    {
        if self.first.is_open {
            if self.second.is_open && self.second.generation == self.first.next_generation() {
                Some(Slot::Second)
            } else {
                Some(Slot::First)
            }
        } else if self.second.is_open {
            Some(Slot::Second)
        } else {
            None
        }
    }

    pub(crate) fn are_foreign(&self) -> bool
        ensures { result ≡ are_foreign self.now }
    {
        self.first.is_out_of_range()
            || self.second.is_out_of_range()
            || self.first.is_open
                && self.second.is_open
                && self.first.generation == self.second.generation
    }

    /// The slot that a save writes to.
    pub(crate) fn spare(&self) -> Slot
        ensures { result ≡ spare self.now }
    {
        match self.current() {
            Some(Slot::First) => Slot::Second,
            Some(Slot::Second) | None => Slot::First,
        }
    }

    /// The generation that a save writes.
    pub(crate) fn new_generation(&self) -> u8
        ensures { result ≡ new_generation self.now }
    {
        match self.current() {
            Some(Slot::First) => self.first.next_generation(),
            Some(Slot::Second) => self.second.next_generation(),
            None => 0,
        }
    }

    pub(crate) fn of(&self, slot: Slot) -> Header
        ensures { result ≡ header_of self.now slot }
    {
        match slot {
            Slot::First => self.first,
            Slot::Second => self.second,
        }
    }

    /// With another header of this slot.
    pub(crate) fn with(&self, slot: Slot, header: Header) -> Headers
        ensures { result ≡ with_header self.now slot header }
    {
        match slot {
            Slot::First => Headers {
                first: header,
                second: self.second,
            },
            Slot::Second => Headers {
                first: self.first,
                second: header,
            },
        }
    }
}
