// What waits for a peer.
ghost use Rattle.std.specs.Prelude.{◌≤◌, length};

use crate::{Connection, NoMemory};
use circular_buffer::HeapCircularBuffer;
use std::alloc::Global;
use std::io;

/// Bytes that a peer hasn't taken yet, of which only so many are kept.
#[derive(Drop)]
pub(crate) struct Backlog {
    bytes: HeapCircularBuffer<u8>,
}

impl Backlog {
    /// Allocates room for so many bytes.
    pub(crate) fn new(alloc: Global, most: usize) -> Result<Backlog, NoMemory> {
        let bytes = HeapCircularBuffer::with_capacity(alloc, most)?;
        Ok(Backlog { bytes })
    }

    pub(crate) fn is_empty(&self) -> bool {
        self.bytes.is_empty()
    }

    /// Keeps as many of the first bytes as there is room for, and returns how many.
    pub(crate) fn keep(&mut self, bytes: &[u8]) -> usize
        ensures { result ≤ length bytes.now }
    {
        self.bytes.fill_from_slice(bytes)
    }

    /// Writes what the connection takes now of the oldest bytes, and returns how many.
    pub(crate) fn pass_on(&mut self, connection: &mut Connection) -> io::Result<usize> {
        let (front, back) = self.bytes.as_slices();
        let oldest = if front.is_empty() { back } else { front };
        let count = connection.write(oldest)?;
        let left = self.bytes.len().saturating_sub(count);
        self.bytes.truncate_front(left);
        Ok(count)
    }
}
