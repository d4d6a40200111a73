// The system's clock.
ghost use Rattle.std.specs.Prelude.{◌≡◌, ◌<◌, None, MatchResult, unwrap_or};
ghost use Rattle.std.specs.Time.{system_time_nanos};
ghost use Rattle.mav_ports.specs.Units.{units_at};

use crate::Clock;
use std::marker::Model;
use std::time::{Duration, SystemTime};
use std::{io, time};

// 2015-01-01 00:00 GMT, in seconds since 1970.
const START_OF_2015: u64 = 1_420_070_400;

const NANOS_PER_UNIT: u128 = 10_000;

/// The system's clock. If the system gives no time, or one before 2015, it returns what it
/// returned last, and 0 at first.
#[derive(Drop)]
pub struct StdClock<C: time::Clock + Drop> {
    system: C,
    last: u64,
}

// Contracts see the time that it returned last.
impl<C: time::Clock + Drop> Model for StdClock<C> {
    ghost use Rattle.std.specs.Prelude.{ℕ};

    ghost Value = { ℕ };

    ghost view = { λ c. c.last };
}

impl<C: time::Clock + Drop> StdClock<C> {
    pub fn new(system: C) -> StdClock<C>
        ensures { result ≡ 0 }
    {
        StdClock { system, last: 0 }
    }
}

impl<C: time::Clock + Drop> Clock for StdClock<C> {
    ghost always = { λ c. None };

    fn now(&mut self) -> u64
        ensures kept { self.new ≡ result }
    {
        self.last = answer(SystemTime::now(&self.system), self.last);
        self.last
    }
}

// The time in units since 2015, if there is one, or else the last one returned.
fn answer(now: io::Result<SystemTime>, last: u64) -> u64
    ensures { MatchResult now (λ time. result ≡ unwrap_or (units_at (system_time_nanos time)) last)
        (λ _. result ≡ last) }
{
    match now {
        Ok(time) => units_since_2015(time).unwrap_or(last),
        Err(_) => last,
    }
}

fn units_since_2015(time: SystemTime) -> Option<u64>
    ensures { result ≡ units_at (system_time_nanos time) }
{
    let start = SystemTime::UNIX_EPOCH + Duration::from_secs(START_OF_2015);
    let since = time.duration_since(start).ok()?;
    u64::try_from(since.as_nanos() / NANOS_PER_UNIT).ok()
}
