// A clock that doesn't advance.
ghost use Rattle.std.specs.Prelude.{◌≡◌, Some};

use crate::Clock;

/// A clock that always returns the same time.
#[derive(Drop)]
pub struct MemClock {
    at: u64,
}

impl MemClock {
    pub fn new(at: u64) -> MemClock
        ensures { ⟦<MemClock as Clock>⟧.always result ≡ Some at }
    {
        MemClock { at }
    }
}

impl Clock for MemClock {
    ghost always = { λ c. Some c.at };

    fn now(&mut self) -> u64 {
        self.at
    }
}
