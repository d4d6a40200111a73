// A queue of frames.
ghost use Rattle.std.specs.Prelude.{◌≡◌, ◌+◌, ◌<◌, ◌≤◌, [], length, IfOk, OnOk, OnErr};
ghost use Rattle.relay_queue.specs.Queues.{count_of, next_bytes, pushed, queue_of, size_of, taken};

use crate::NoMemory;
use crate::backlog::Backlog;
use std::alloc::Global;
use std::marker::Model;

/// Frames that wait to be written, in their order, and what is left of one of which a part was written: 1 MiB at most.
pub struct Queue {
    frames: Backlog,
}

// By hand, so that whoever drops a queue proves one call.
impl Drop for Queue {
    fn drop(self) {
        let Queue { frames: _frames } = self;
    }
}

impl Model for Queue {
    ghost use Rattle.std.specs.Prelude.{◌≤◌, ◌+◌, length};
    ghost use Rattle.relay_queue.specs.Queues.{QueueState, queue_limit, size_of};

    ghost Value = { QueueState };

    ghost view = { λ q. q.frames };

    ghost invariant = { λ q. length q.frames.begun + size_of q.frames.waiting ≤ queue_limit };
}

impl Queue {
    /// Nothing waits.
    pub fn new(alloc: Global) -> Result<Queue, NoMemory>
        ensures { IfOk result (λ q. q ≡ queue_of [] []) }
    {
        let frames = Backlog::new(alloc)?;
        Ok(Queue { frames })
    }

    /// How many bytes wait, with those of a frame of which a part was written.
    pub fn len(&self) -> usize
        ensures size { result ≡ length self.now.begun + size_of self.now.waiting }
        ensures few { result ≤ 1048576 }
    {
        self.frames.len()
    }

    /// How many frames aren't written to their ends.
    pub fn count(&self) -> usize
        ensures { result ≡ count_of self.now }
    {
        self.frames.count()
    }

    /// The bytes to write next: the rest of a frame of which a part was written, or all that wait.
    pub fn next_bytes(&self) -> &[u8]
        ensures { result.now ≡ next_bytes self.now }
    {
        self.frames.next_bytes()
    }

    /// Has a frame of at most 280 bytes wait, and returns how many of the oldest waiting ones were dropped to make
    /// room for it. Without memory nothing changes.
    pub fn push(&mut self, frame: &[u8]) -> Result<usize, NoMemory>
        requires some { 0 < length frame.now }
        requires few { length frame.now ≤ 280 }
        ensures queue { OnOk result (self.new ≡ pushed frame.now self.old) }
        ensures dropped { IfOk result (λ n. n + length self.new.waiting ≡ length self.old.waiting + 1) }
        ensures unchanged { OnErr result (self.new ≡ self.old) }
    {
        self.frames.push(frame)
    }

    /// So many of the bytes to write next were written.
    pub fn wrote(&mut self, count: usize)
        requires { count ≤ length (next_bytes self.old) }
        ensures { self.new ≡ taken count self.old }
    {
        self.frames.wrote(count);
    }
}
