// What a port waits for.

use crate::bells::Bell;
use mio::event::Source;
use mio::net::TcpStream;
use mio::{Events, Interest, Poll, Token};
use std::alloc::Global;
use std::io;
use std::io::ErrorKind;
use std::net::Net;
use std::sync::Arc;
use std::time::Duration;

const SOURCE: Token = Token(0);

const BELL: Token = Token(1);

// A wait ends at any of them.
const MOST_EVENTS: usize = 4;

// So often a rest looks before it sleeps, if something happened soon in the last one: more may come at once.
const LOOKS: u32 = 512;

const MILLIS_SOON: u64 = 1;

// So many rests sleep at once after one that looked in vain.
const SLEEPS: u32 = 16;

// So many other ports may rest until something happens at this one.
const MOST_OTHERS: usize = 8;

/// What the port in one thread waits for: that its socket can be read or written, or that its bell rings.
#[derive(Drop)]
pub struct Watch {
    poll: Poll,
    events: Events,
    bell: Arc<Bell>,
    others: Vec<Arc<Bell>>,
    looks: u32,
    sleeps: u32,
}

impl Watch {
    /// Watches nothing but its bell.
    pub fn new(net: &impl Net, alloc: Global) -> io::Result<Watch> {
        let poll = Poll::new(net)?;
        let bell = Bell::new(poll.registry(), BELL)?;
        Ok(Watch {
            poll,
            events: Events::with_capacity(alloc, MOST_EVENTS)?,
            bell: Arc::new(alloc, bell)?,
            others: Vec::with_capacity(alloc, MOST_OTHERS)?,
            looks: 0,
            sleeps: 0,
        })
    }

    /// Watches a socket too.
    pub fn add<S: Source>(&mut self, source: &mut S) -> io::Result<()>
        ensures kept { S.keeps source.old source.new }
    {
        let interest = Interest::READABLE | Interest::WRITABLE;
        self.poll.registry().register(source, SOURCE, interest)
    }

    /// Watches a stream, by which the waits of the others end too.
    pub(crate) fn add_stream(&mut self, stream: &mut TcpStream) -> io::Result<()> {
        for bell in &self.others {
            bell.hears(stream);
        }
        self.add(stream)
    }

    /// What happens at its socket ends the waits of the bell's port too, also if the socket comes later.
    pub(crate) fn wakes(&mut self, bell: Arc<Bell>) {
        if self.others.len() < MOST_OTHERS {
            let _ = self.others.push(bell);
        }
    }

    /// What ends its wait from another thread; none if there is no memory.
    pub fn bell(&self) -> Option<Arc<Bell>> {
        self.bell.clone().ok()
    }

    /// The next ring ends the next wait.
    pub fn expect_bell(&self) {
        self.bell.expect();
    }

    /// Waits until something happens, at most so long.
    pub fn wait(&mut self, most: Duration) {
        let _ = self.poll.poll(&mut self.events, Some(most));
    }

    // The same, and whether something happened.
    fn sees(&mut self, most: Duration) -> bool {
        let looked = self.poll.poll(&mut self.events, Some(most));
        looked.is_ok() && !self.events.is_empty()
    }

    /// The same for a port that passes on what comes: where that comes fast, it looks for a moment before it sleeps.
    pub(crate) fn rest(&mut self, most: Duration) {
        for _look in 0..self.looks {
            if self.sees(Duration::ZERO) {
                return;
            }
        }
        let soon = Duration::from_millis(MILLIS_SOON).min(most);
        let came_soon = self.sees(soon);
        self.plan_looks(came_soon);
        if !came_soon {
            self.wait(most.saturating_sub(soon));
        }
    }

    // How often the next rest looks, after one that saw nothing until it slept.
    fn plan_looks(&mut self, came_soon: bool) {
        self.sleeps = if self.looks > 0 {
            SLEEPS
        } else {
            self.sleeps.saturating_sub(1)
        };
        self.looks = if came_soon && self.sleeps == 0 {
            LOOKS
        } else {
            0
        };
    }
}

/// Whether a call on a socket found that it would have to wait.
pub(crate) fn would_wait<T>(call: &io::Result<T>) -> bool {
    match call {
        Ok(_) => false,
        Err(error) => error.kind() == ErrorKind::WouldBlock,
    }
}
