// A TCP connection whose reads wait for bytes until Idle is due.
ghost use Rattle.std.specs.Prelude.{◌≤◌, length};
ghost use Rattle.std.specs.Io.{WritesAtMost};

use crate::backlog::Backlog;
use crate::watch::would_wait;
use crate::{Bell, Connection, Pace, Waits, Watch};
use std::alloc::Global;
use std::io;
use std::io::{Error, ErrorKind, Read, Write};
use std::sync::Arc;
use std::time::{Clock, Duration};

/// A call looks so often whether it can be made.
pub(crate) const MOST_LOOKS: u32 = 1_000_000;

// A writer that asks for room before it writes is told so many bytes: what the system doesn't take of them at once is
// kept.
const ROOM: usize = 8192;

const MOST_KEPT: usize = 16_384;

// A peer that reads slowly may take bytes without a sign of it: it is looked so often, in milliseconds.
const MOST_MILLIS_UNSEEN: u64 = 50;

/// A TCP connection. A read in which no byte comes until Idle is due gives `WouldBlock`. A write waits for the peer,
/// and fails once the peer has taken no byte for five seconds; while its one client hasn't come, it waits for it. A
/// writer that asks for room first never waits: what the peer hasn't taken is kept, and passed on at later calls. It
/// shuts its writing side down before it closes, so that its peer reads the end after all that was written.
pub struct WaitingStream<C: Clock + Drop> {
    connection: Connection,
    watch: Watch,
    pace: Pace<C>,
    backlog: Backlog,
    untaken_since: Option<Duration>,
    failed: bool,
    asks: bool,
}

// Waits until something happens, at most so long, and not until a peer takes bytes without a sign of it.
fn look_after(watch: &mut Watch, most: Duration) {
    let unseen = Duration::from_millis(MOST_MILLIS_UNSEEN);
    watch.wait(most.min(unseen));
}

impl<C: Clock + Drop> WaitingStream<C> {
    pub fn new(
        connection: Connection,
        watch: Watch,
        pace: Pace<C>,
        alloc: Global,
    ) -> io::Result<WaitingStream<C>> {
        let mut connection = connection;
        let mut watch = watch;
        connection.watched_by(&mut watch)?;
        Ok(WaitingStream {
            connection,
            watch,
            pace,
            backlog: Backlog::new(alloc, MOST_KEPT)?,
            untaken_since: None,
            failed: false,
            asks: false,
        })
    }

    // Whether there is a connection.
    fn is_connected(&mut self) -> bool {
        self.connection.is_connected(&mut self.watch)
    }

    // Waits for the client, if it hasn't come.
    fn await_client(&mut self) {
        for _look in 0..MOST_LOOKS {
            if self.is_connected() {
                return;
            }
            self.watch.wait(self.pace.most_to_write());
        }
    }

    // How long the peer may go on to take nothing of what waits for it.
    fn left_to_take(&self) -> Duration {
        let since = self.untaken_since.unwrap_or(self.pace.now());
        self.pace.left_to_write(since)
    }

    // Passes on what the peer takes now of what waits for it.
    fn pass_on(&mut self) {
        if self.failed || self.backlog.is_empty() {
            return;
        }
        let call = self.backlog.pass_on(&mut self.connection);
        if would_wait(&call) {
            self.failed = self.left_to_take().is_zero();
            return;
        }
        self.failed = call.is_err();
        self.untaken_since = if self.backlog.is_empty() {
            None
        } else {
            Some(self.pace.now())
        };
    }

    // Keeps some of the bytes for the peer, and returns how many.
    fn keep(&mut self, bytes: &[u8]) -> usize
        ensures { result ≤ length bytes.now }
    {
        let count = self.backlog.keep(bytes);
        if self.untaken_since.is_none() {
            self.untaken_since = Some(self.pace.now());
        }
        count
    }

    // Writes after what waits for the peer, if that needn't wait.
    fn write_now(&mut self, bytes: &[u8]) -> io::Result<usize>
        ensures bound { WritesAtMost result bytes.now }
    {
        self.pass_on();
        if self.failed {
            return Err(Error::from(ErrorKind::TimedOut));
        }
        if self.backlog.is_empty() {
            return self.connection.write(bytes);
        }
        Err(Error::from(ErrorKind::WouldBlock))
    }

    // The same, once the peer takes bytes.
    fn write_waiting(&mut self, bytes: &[u8]) -> io::Result<usize>
        ensures bound { WritesAtMost result bytes.now }
    {
        let since = self.pace.now();
        for _look in 0..MOST_LOOKS {
            let call = self.write_now(bytes);
            if !would_wait(&call) {
                return call;
            }
            let left = self.pace.left_to_write(since);
            if left.is_zero() {
                break;
            }
            look_after(&mut self.watch, left);
        }
        Err(Error::from(ErrorKind::TimedOut))
    }
}

// Waits until the peer has taken what waits for it, as long as it takes some; it last did then, if it left bytes.
fn drain<C: Clock + Drop>(
    backlog: &mut Backlog,
    connection: &mut Connection,
    watch: &mut Watch,
    pace: &Pace<C>,
    untaken_since: Option<Duration>,
) {
    let mut since = untaken_since.unwrap_or(pace.now());
    for _look in 0..MOST_LOOKS {
        let left = pace.left_to_write(since);
        if backlog.is_empty() || left.is_zero() {
            return;
        }
        let call = backlog.pass_on(connection);
        if would_wait(&call) {
            look_after(watch, left);
        } else if call.is_err() {
            return;
        } else {
            since = pace.now();
        }
    }
}

impl<C: Clock + Drop> Read for WaitingStream<C> {
    fn read(&mut self, buf: &mut [u8]) -> io::Result<usize> {
        for _look in 0..MOST_LOOKS {
            let left = self.pace.left();
            if left.is_zero() && self.pace.is_steady() {
                break;
            }
            let _ = self.is_connected();
            let call = self.connection.read(buf);
            if !would_wait(&call) {
                self.pace.came();
                return call;
            }
            if left.is_zero() {
                break;
            }
            self.watch.wait(left);
        }
        self.pace.idled();
        Err(Error::from(ErrorKind::WouldBlock))
    }
}

impl<C: Clock + Drop> Write for WaitingStream<C> {
    fn write(&mut self, bytes: &[u8]) -> io::Result<usize> {
        self.await_client();
        if !self.asks {
            return self.write_waiting(bytes);
        }
        let call = self.write_now(bytes);
        if !would_wait(&call) {
            return call;
        }
        match self.keep(bytes) {
            0 => self.write_waiting(bytes),
            count => Ok(count),
        }
    }

    fn flush(&mut self) -> io::Result<()> {
        Ok(())
    }
}

impl<C: Clock + Drop> Waits for WaitingStream<C> {
    fn is_ready(&mut self) -> bool {
        self.pass_on();
        if self.pace.left().is_zero() {
            return true;
        }
        if self.is_connected() && !would_wait(&self.connection.peek(&mut [0; 1])) {
            return true;
        }
        self.watch.expect_bell();
        false
    }

    fn rest(&mut self) {
        self.watch.rest(self.pace.left_to_rest());
    }

    fn room(&mut self) -> usize {
        self.asks = true;
        if !self.is_connected() {
            return 0;
        }
        self.pass_on();
        if self.backlog.is_empty() || self.failed {
            ROOM
        } else {
            0
        }
    }

    fn bell(&self) -> Option<Arc<Bell>> {
        self.watch.bell()
    }

    fn wakes(&mut self, bell: Arc<Bell>) {
        self.connection.heard_by(&bell);
        self.watch.wakes(bell);
    }
}

impl<C: Clock + Drop> Drop for WaitingStream<C> {
    fn drop(self) {
        let WaitingStream {
            connection,
            watch,
            pace,
            backlog,
            untaken_since,
            failed,
            asks: _,
        } = self;
        let (mut backlog, mut connection, mut watch) = (backlog, connection, watch);
        if !failed {
            drain(
                &mut backlog,
                &mut connection,
                &mut watch,
                &pace,
                untaken_since,
            );
        }
        connection.end_writing();
    }
}
