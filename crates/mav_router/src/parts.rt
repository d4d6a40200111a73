// One port of a router with a thread for each.
use crate::batch::Batch;
use crate::buffer::Buffer;
use crate::found::FoundFrames;
use crate::lane::Lane;
use crate::shared::SharedPages;
use crate::{NoMemory, Switch, SwitchFault};
use mav_links::Link;
use std::alloc::Global;
use turnstile::TurnSeat;

/// How a thread ended.
#[derive(Clone, Copy)]
pub(crate) enum Halt {
    /// Its port ended or failed, or was read as often as it may be.
    Done,
    /// Another thread had a fault.
    Stopped,
    /// The switch didn't take a frame.
    Fault(SwitchFault),
}

/// What a thread works in: what its port is read into, the frames that were found there, and what waits for the port.
pub(crate) struct Room {
    pub(crate) batch: Batch,
    pub(crate) buffer: Buffer,
    pub(crate) found: FoundFrames,
    pub(crate) shared: SharedPages,
}

// By hand, so that whoever drops a room proves one call.
impl Drop for Room {
    fn drop(self) {
        let Room {
            batch: _batch,
            buffer: _buffer,
            found: _found,
            shared: _shared,
        } = self;
    }
}

impl Room {
    pub(crate) fn new(alloc: Global) -> Result<Room, NoMemory> {
        Ok(Room {
            batch: Batch::new(alloc)?,
            buffer: Buffer::new(alloc)?,
            found: FoundFrames::new(alloc),
            shared: SharedPages::new(alloc)?,
        })
    }
}

/// A port with its link, without its seat: `taken` is how many entries of the journal were looked through for it.
#[derive(Drop)]
pub(crate) struct Side<L> {
    pub(crate) link: L,
    pub(crate) lane: Lane,
    pub(crate) taken: usize,
    pub(crate) room: Room,
    pub(crate) halt: Halt,
}

/// What a thread has: its port's number, the seat by which it takes turns, and the rest.
#[derive(Drop)]
pub(crate) struct Part<'a, L> {
    pub(crate) port: u8,
    pub(crate) seat: TurnSeat<Switch<'a>>,
    pub(crate) side: Side<L>,
}
