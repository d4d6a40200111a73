// What waits for a link.
ghost use Rattle.std.specs.Prelude.{◌≡◌, ◌<◌, ◌≤◌, length, IfOk, OnOk, OnErr};
ghost use Rattle.relay_queue.specs.Queues.{next_bytes};
ghost use Rattle.relay_core.specs.Waitings.{lost, nothing_waits, waits, wrote};

use crate::NoMemory;
use relay_queue::Queue;
use std::alloc::Global;
use std::marker::Model;

/// The frames that wait for a link, and how many were dropped.
pub(crate) struct Waiting {
    queue: Queue,
    dropped: u64,
}

// By hand, so that whoever drops it proves one call.
impl Drop for Waiting {
    fn drop(self) {
        let Waiting {
            queue: _queue,
            dropped: _,
        } = self;
    }
}

impl Model for Waiting {
    ghost use Rattle.relay_core.specs.Waitings.{WaitingState};

    ghost Value = { WaitingState };

    ghost view = { λ w. record { queue = w.queue; dropped = w.dropped } };
}

impl Waiting {
    /// Nothing waits, and nothing was dropped.
    pub(crate) fn new(alloc: Global) -> Result<Waiting, NoMemory>
        ensures { IfOk result (λ w. w ≡ nothing_waits) }
    {
        let queue = Queue::new(alloc)?;
        Ok(Waiting { queue, dropped: 0 })
    }

    /// A frame waits after the others, of which the oldest are dropped for which there is no room.
    pub(crate) fn push(&mut self, bytes: &[u8]) -> Result<(), NoMemory>
        requires some { 0 < length bytes.now }
        requires short { length bytes.now ≤ 280 }
        ensures waits { OnOk result (self.new ≡ waits bytes.now self.old) }
        ensures unchanged { OnErr result (self.new ≡ self.old) }
    {
        let dropped = self.queue.push(bytes)?;
        self.dropped = self.dropped.saturating_add(dropped as u64);
        Ok(())
    }

    /// The bytes to write next.
    pub(crate) fn next_bytes(&self) -> &[u8]
        ensures { result.now ≡ next_bytes self.now.queue }
    {
        self.queue.next_bytes()
    }

    /// So many of the bytes to write next were written.
    pub(crate) fn wrote(&mut self, count: usize)
        requires { count ≤ length (next_bytes self.old.queue) }
        ensures { self.new ≡ wrote count self.old }
    {
        self.queue.wrote(count);
    }

    /// How many frames were dropped.
    pub(crate) fn dropped(&self) -> u64
        ensures { result ≡ self.now.dropped }
    {
        self.dropped
    }

    /// How many were dropped once the link closes, where nothing waits any more.
    pub(crate) fn lost(&self) -> u64
        ensures { result ≡ lost self.now }
    {
        self.dropped.saturating_add(self.queue.count() as u64)
    }
}
