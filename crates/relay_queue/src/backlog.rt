// Frames that wait, however many.
ghost use Rattle.std.specs.Prelude.{◌≡◌, ◌+◌, ◌-◌, ◌*◌, ◌<◌, ◌≤◌, ◌∷◌, ◌++◌, [], ℕ, List, length, drop, IfOk, OnOk};
ghost use Rattle.std.specs.Prelude.{OnErr, IfSome, OnSome, Some, None, true, slice_range, vec_len, vec_capacity, ◌^◌};
ghost use Rattle.std.specs.Prelude.{false, nat_lt};
ghost use Rattle.relay_queue.specs.Queues.{QueueState, count_of, has_begun, newest, next_bytes, pushed, queue_limit};
ghost use Rattle.relay_queue.specs.Queues.{queue_of, size_of, taken, written};

use crate::NoMemory;
use std::alloc::Global;
use std::collections::VecDeque;
use std::marker::Model;

/// At most so many bytes wait.
const LIMIT: usize = 1_048_576;

/// The most bytes of a frame.
const FRAME_LIMIT: usize = 280;

/// Frames that wait to be written, in their order, and what is left of one of which a part was written.
pub(crate) struct Backlog {
    // The frame of which a part was written, and how much of it.
    part: Vec<u8>,
    from: usize,
    // The waiting frames' bytes, after those of frames that are gone, and their sizes.
    bytes: Vec<u8>,
    start: usize,
    sizes: VecDeque<u16>,
}

// By hand, so that whoever drops it proves one call.
impl Drop for Backlog {
    fn drop(self) {
        let Backlog {
            part: _part,
            from: _,
            bytes: _bytes,
            start: _,
            sizes: _sizes,
        } = self;
    }
}

impl Model for Backlog {
    ghost use Rattle.std.specs.Prelude.{◌≡◌, ◌≤◌, ◌+◌, drop, length, vec_len, vec_capacity};
    ghost use Rattle.relay_queue.specs.Queues.{AreFrames, QueueState, frames_in, total};

    ghost Value = { QueueState };

    ghost view = { λ q. record {
      begun = drop q.from q.part.items;
      waiting = frames_in q.sizes.items (drop q.start q.bytes.items);
    } };

    ghost invariant = { λ q. (q.from ≤ vec_len q.part) × (vec_len q.part ≤ 280) × (280 ≤ vec_capacity q.part)
        × (q.start + total q.sizes.items ≡ length q.bytes.items) × AreFrames q.sizes.items
        × (length q.bytes.items ≤ 2097432) };
}

// A part of some bytes takes the place of what is in a list with room for it.
fn replace(list: &mut Vec<u8>, bytes: &[u8], from: usize, to: usize)
    requires order { from ≤ to }
    requires within { to ≤ length bytes.now }
    requires room { to - from ≤ vec_capacity list.old }
    ensures items { list.new.items ≡ slice_range bytes.now from to }
    ensures len { vec_len list.new ≡ to - from }
    ensures room { vec_capacity list.old ≤ vec_capacity list.new }
{
    list.clear();
    let kept: Result<_, _> = list.extend_from_slice(&bytes[from..to]);
    kept.unwrap();
}

// Gives the bytes of frames that are gone back, once there are as many of them as may wait.
fn compact(bytes: &mut Vec<u8>, start: &mut usize) -> Result<(), NoMemory>
    requires { start.old ≤ length bytes.old.items }
    ensures rest { drop start.new bytes.new.items ≡ drop start.old bytes.old.items }
    ensures count { length bytes.new.items + start.old ≡ length bytes.old.items + start.new }
    ensures less { length bytes.new.items ≤ length bytes.old.items }
    ensures few { OnOk result (start.new < 1048576) }
{
    if *start < LIMIT {
        return Ok(());
    }
    let alloc = *bytes.allocator();
    let left = Vec::from_slice(alloc, &bytes[*start..])?;
    *bytes = left;
    *start = 0;
    Ok(())
}

impl Backlog {
    /// Nothing waits.
    pub(crate) fn new(alloc: Global) -> Result<Backlog, NoMemory>
        ensures { IfOk result (λ q. q ≡ queue_of [] []) }
    {
        let part = Vec::with_capacity(alloc, FRAME_LIMIT)?;
        Ok(Backlog {
            part,
            from: 0,
            bytes: Vec::new(alloc),
            start: 0,
            sizes: VecDeque::new(alloc),
        })
    }

    /// How many bytes wait, with those of a frame of which a part was written.
    pub(crate) fn len(&self) -> usize
        ensures size { result ≡ length self.now.begun + size_of self.now.waiting }
        ensures part { length self.now.begun ≤ 280 }
    {
        (self.part.len() - self.from) + (self.bytes.len() - self.start)
    }

    /// How many frames aren't written to their ends.
    pub(crate) fn count(&self) -> usize
        ensures { result ≡ count_of self.now }
    {
        if self.has_begun() {
            self.waiting() + 1
        } else {
            self.waiting()
        }
    }

    // Whether a part of a frame was written.
    fn has_begun(&self) -> bool
        ensures { result ≡ has_begun self.now }
    {
        self.from < self.part.len()
    }

    // How many frames wait.
    fn waiting(&self) -> usize
        ensures count { result ≡ length self.now.waiting }
        ensures few { result + 1 < 2 ^ 64 }
    {
        self.sizes.len()
    }

    /// The bytes to write next: the rest of a frame of which a part was written, or all that wait.
    pub(crate) fn next_bytes(&self) -> &[u8]
        ensures { result.now ≡ next_bytes self.now }
    {
        if self.has_begun() {
            &self.part[self.from..]
        } else {
            &self.bytes[self.start..]
        }
    }

    // The size of the oldest waiting frame.
    fn first_size(&self) -> Option<usize>
        ensures none { result ≡ None → self.now.waiting ≡ [] }
        ensures size { IfSome result (λ size. (frame : List ℕ) (frames : List (List ℕ))
            → self.now.waiting ≡ frame ∷ frames → size ≡ length frame) }
        ensures some { OnSome result (0 < length self.now.waiting) }
    {
        let Some(size) = self.sizes.front() else {
            return None;
        };
        Some(usize::from(*size))
    }

    // The oldest waiting frame goes.
    fn drop_first(&mut self)
        ensures { self.new ≡ queue_of self.old.begun (drop 1 self.old.waiting) }
    {
        let Some(size) = self.sizes.pop_front() else {
            return;
        };
        self.start += usize::from(size);
    }

    /// Has a frame of at most 280 bytes wait, and returns how many of the oldest waiting ones were dropped to make
    /// room for it. Without memory nothing changes.
    pub(crate) fn push(&mut self, frame: &[u8]) -> Result<usize, NoMemory>
        requires some { 0 < length frame.now }
        requires few { length frame.now ≤ 280 }
        requires room { length self.old.begun + size_of self.old.waiting ≤ queue_limit }
        ensures queue { OnOk result (self.new ≡ pushed frame.now self.old) }
        ensures dropped { IfOk result (λ n. n + length self.new.waiting ≡ length self.old.waiting + 1) }
        ensures unchanged { OnErr result (self.new ≡ self.old) }
    {
        self.append(frame)?;
        Ok(self.drop_oldest())
    }

    // Has a frame wait after the others.
    fn append(&mut self, frame: &[u8]) -> Result<(), NoMemory>
        requires some { 0 < length frame.now }
        requires few { length frame.now ≤ 280 }
        requires room { size_of self.old.waiting ≤ queue_limit }
        ensures queue { OnOk result (self.new ≡ queue_of self.old.begun (self.old.waiting ++ frame.now ∷ [])) }
        ensures unchanged { OnErr result (self.new ≡ self.old) }
    {
        compact(&mut self.bytes, &mut self.start)?;
        self.sizes.reserve(1)?;
        self.bytes.extend_from_slice(frame)?;
        self.sizes.push_back_reserved(frame.len() as u16);
        Ok(())
    }

    // Drops the oldest waiting frames until there is room for the others, and returns how many.
    fn drop_oldest(&mut self) -> usize
        ensures queue { self.new ≡ queue_of self.old.begun
            (newest (queue_limit - length self.old.begun) self.old.waiting) }
        ensures dropped { result + length self.new.waiting ≡ length self.old.waiting }
    {
        let before = self.waiting();
        while self.is_over() {
            self.drop_first();
        }
        before - self.waiting()
    }

    // Whether more waits than may.
    fn is_over(&self) -> bool
        ensures over { result ≡ nat_lt (queue_limit - length self.now.begun) (size_of self.now.waiting) }
        ensures some { result ≡ true → 0 < length self.now.waiting }
    {
        self.len() > LIMIT
    }

    /// So many of the bytes to write next were written.
    pub(crate) fn wrote(&mut self, count: usize)
        requires { count ≤ length (next_bytes self.old) }
        ensures { self.new ≡ taken count self.old }
    {
        if self.has_begun() {
            self.from += count;
            return;
        }
        self.take_frames(count);
    }

    // So many bytes of the waiting frames were written.
    fn take_frames(&mut self, count: usize)
        requires { has_begun self.old ≡ false }
        ensures { self.new ≡ written count self.old.waiting }
    {
        let mut left = count;
        while left > 0 {
            let Some(size) = self.first_size() else {
                return;
            };
            if left < size {
                self.begin(left);
                return;
            }
            self.drop_first();
            left -= size;
        }
    }

    // So many bytes of the oldest waiting frame were written, and not all.
    fn begin(&mut self, count: usize)
        requires none { has_begun self.old ≡ false }
        requires part { (frame : List ℕ) (frames : List (List ℕ)) → self.old.waiting ≡ frame ∷ frames
            → count < length frame }
        ensures { (frame : List ℕ) (frames : List (List ℕ)) → self.old.waiting ≡ frame ∷ frames
            → self.new ≡ queue_of (drop count frame) frames }
    {
        let Some(size) = self.sizes.pop_front() else {
            return;
        };
        let end = self.start + usize::from(size);
        replace(&mut self.part, &self.bytes, self.start + count, end);
        self.from = 0;
        self.start = end;
    }
}
