// When a link that waits for its bytes returns Idle.
ghost use Rattle.std.specs.Prelude.{◌≡◌, ◌-◌};
ghost use Rattle.std.specs.Duration.{as_nanos};
ghost use Rattle.mav_links.specs.Paces.{nanos_left};

use std::time::{Clock, Duration};

const MOST_SECONDS_TO_WRITE: u64 = 5;

// A port that rests until nothing has come for a while may be so late: the Idle answers that are due then come at
// once.
const MOST_MILLIS_LATE: u64 = 40;

/// When a read gives Idle.
#[derive(Clone, Copy)]
pub enum Beat {
    /// So long after the last Idle, or after the first call, whatever comes in between.
    Steady(Duration),
    /// Once nothing has come for so long.
    Quiet(Duration),
}

/// When the next Idle of a link is due, by a monotonic clock.
#[derive(Drop)]
pub struct Pace<C: Clock + Drop> {
    clock: C,
    beat: Beat,
    since: Option<Duration>,
}

// How much of a span is left that began then.
fn time_left(span: Duration, since: Duration, now: Duration) -> Duration
    ensures { as_nanos result ≡ nanos_left (as_nanos span) (as_nanos since) (as_nanos now) }
{
    span.saturating_sub(now.saturating_sub(since))
}

// When a span begins after one that began then: at its end, unless that is still to come, or long ago.
fn next_since(span: Duration, since: Duration, now: Duration) -> Duration {
    let late = Duration::from_millis(MOST_MILLIS_LATE);
    since
        .saturating_add(span)
        .max(now.saturating_sub(late))
        .min(now)
}

impl<C: Clock + Drop> Pace<C> {
    /// It begins with the link's first call.
    pub fn new(clock: C, beat: Beat) -> Pace<C> {
        Pace {
            clock,
            beat,
            since: None,
        }
    }

    /// The time now; that of the last Idle, if the clock has none.
    pub(crate) fn now(&self) -> Duration {
        self.clock
            .monotonic()
            .unwrap_or(self.since.unwrap_or(Duration::ZERO))
    }

    /// How long it is until Idle is due.
    pub(crate) fn left(&mut self) -> Duration {
        let now = self.now();
        let since = *self.since.get_or_insert(now);
        match self.beat {
            Beat::Steady(span) | Beat::Quiet(span) => time_left(span, since, now),
        }
    }

    /// How long a peer may leave a write untaken.
    pub(crate) fn most_to_write(&self) -> Duration {
        Duration::from_secs(MOST_SECONDS_TO_WRITE)
    }

    /// How much is left of the time in which a write must be taken that began then.
    pub(crate) fn left_to_write(&self, since: Duration) -> Duration {
        time_left(self.most_to_write(), since, self.now())
    }

    /// Whether Idle comes when it is due, whatever else has come.
    pub(crate) fn is_steady(&self) -> bool {
        matches!(self.beat, Beat::Steady(_))
    }

    /// Bytes came.
    pub(crate) fn came(&mut self) {
        if let Beat::Quiet(_) = self.beat {
            self.since = Some(self.now());
        }
    }

    /// How long its port may rest: where Idle comes once nothing has come, a little longer than until it is due.
    pub(crate) fn left_to_rest(&mut self) -> Duration {
        let left = self.left();
        match self.beat {
            Beat::Steady(_) => left,
            Beat::Quiet(_) => left.saturating_add(Duration::from_millis(MOST_MILLIS_LATE)),
        }
    }

    /// Idle was given. Where it comes once nothing has come, the next one is due a span after it was due.
    pub(crate) fn idled(&mut self) {
        let now = self.now();
        self.since = Some(match self.beat {
            Beat::Steady(_) => now,
            Beat::Quiet(span) => next_since(span, self.since.unwrap_or(now), now),
        });
    }
}
