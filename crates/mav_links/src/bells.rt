// A bell that ends the wait of a port.

use mio::event::Source;
use mio::{Interest, Registry, Token, Waker};
use std::io;
use std::sync::atomic::{AtomicBool, Ordering};

// The sockets of other ports.
const OTHERS: Token = Token(2);

/// Ends the wait of a port in another thread: something waits to be written to it.
#[derive(Drop)]
pub struct Bell {
    waker: Waker,
    is_expected: AtomicBool,
    registry: Registry,
}

impl Bell {
    pub(crate) fn new(registry: &Registry, token: Token) -> io::Result<Bell> {
        Ok(Bell {
            waker: Waker::new(registry, token)?,
            is_expected: AtomicBool::new(false),
            registry: registry.try_clone()?,
        })
    }

    /// Ends the wait that is under way, or else the next, if the port has said since the last ring that it will wait.
    pub fn ring(&self) {
        if self.is_expected.swap(false, Ordering::SeqCst) {
            let _ = self.waker.wake();
        }
    }

    /// What happens at another port's socket ends the waits too.
    pub(crate) fn hears<S: Source>(&self, source: &mut S)
        ensures kept { S.keeps source.old source.new }
    {
        let interest = Interest::READABLE | Interest::WRITABLE;
        let _ = self.registry.register(source, OTHERS, interest);
    }

    /// The port is about to wait: the next ring ends its wait.
    pub(crate) fn expect(&self) {
        self.is_expected.store(true, Ordering::SeqCst);
    }
}
