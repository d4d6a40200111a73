// The bytes that readers hold.
ghost use Rattle.std.specs.Prelude.{◌≡◌, ℕ, ◌+◌, ◌-◌, ◌<◌, ◌≤◌, ◌++◌, [], length, take, drop, min, slice_index};
ghost use Rattle.std.specs.Prelude.{slice_range};

use std::marker::Model;

/// The bytes that a reader took and didn't use yet, at most `ROOM`, seen as their list: those of a buffer from `start`
/// to `end`.
#[derive(Drop)]
pub struct Window<const ROOM: usize> {
    buffer: [u8; ROOM],
    start: usize,
    end: usize,
}

impl<const ROOM: usize> Model for Window<ROOM> {
    ghost use Rattle.std.specs.Prelude.{List, ℕ, ◌≤◌, slice_range};

    ghost Value = { List ℕ };

    ghost view = { λ w. slice_range w.buffer w.start w.end };

    ghost invariant = { λ w. (w.start ≤ w.end) × (w.end ≤ ROOM) };
}

// Moves a part of a buffer to its start.
fn move_to_front(buffer: &mut [u8], start: usize, end: usize)
    requires order { start ≤ end }
    requires within { end ≤ length buffer.old }
    ensures { take (end - start) buffer.new ≡ slice_range buffer.old start end }
{
    if start > 0 {
        buffer.copy_within(start..end, 0);
    }
}

// Writes a piece after the first bytes of a buffer.
fn write_after(buffer: &mut [u8], held: usize, piece: &[u8])
    requires { held + length piece.now ≤ length buffer.old }
    ensures { take (held + length piece.now) buffer.new ≡ take held buffer.old ++ piece.now }
{
    buffer[held..held + piece.len()].copy_from_slice(piece);
}

/// The same bytes: each is below 256.
#[inline(always)]
pub(crate) fn as_bytes(bytes: &[u8]) -> &[u8]
    ensures list { result.now ≡ bytes.now }
    ensures bytes { (k : ℕ) → slice_index result.now k < 256 }
{
    bytes
}

impl<const ROOM: usize> Window<ROOM> {
    /// Without a byte.
    pub fn new() -> Window<ROOM>
        ensures { result ≡ [] }
    {
        Window {
            buffer: [0; ROOM],
            start: 0,
            end: 0,
        }
    }

    /// The bytes held.
    #[inline(always)]
    pub fn bytes(&self) -> &[u8]
        ensures list { result.now ≡ self.now }
        ensures within { length result.now ≤ ROOM }
        ensures bytes { (k : ℕ) → slice_index result.now k < 256 }
    {
        let buffer = &self.buffer[..];
        as_bytes(&buffer[self.start..self.end])
    }

    /// Removes all bytes.
    pub fn clear(&mut self)
        ensures { self.new ≡ [] }
    {
        self.start = 0;
        self.end = 0;
    }

    /// Appends as many bytes as there is room for, and returns how many.
    pub fn append(&mut self, piece: &[u8]) -> usize
        ensures count { result ≡ min (length piece.now) (ROOM - length self.old) }
        ensures bytes { self.new ≡ self.old ++ take result piece.now }
        ensures all { length self.old + length piece.now ≤ ROOM → self.new ≡ self.old ++ piece.now }
    {
        let held = self.end - self.start;
        move_to_front(&mut self.buffer, self.start, self.end);
        let count = piece.len().min(ROOM - held);
        write_after(&mut self.buffer, held, &piece[..count]);
        self.start = 0;
        self.end = held + count;
        count
    }

    /// Removes bytes from the start.
    #[inline(always)]
    pub fn remove(&mut self, count: usize)
        requires { count ≤ length self.old }
        ensures { self.new ≡ drop count self.old }
    {
        self.start += count;
    }
}
