// A log that is read in large pieces.
ghost use Rattle.std.specs.Prelude.{◌≡◌, ◌+◌, ◌≤◌, ◌++◌, length, drop, true, IfOk};
ghost use Rattle.mav_profile.specs.Messages.{extras_of};
ghost use Rattle.log_rows.specs.Progress.{no_bytes_held};
ghost use Rattle.mav_log.specs.Tellers.{IsNextOfLog};

use dialect::Dialect;
use log_rows::{RowSpan, row_span};
use mav_ports::NoMemory;
use mav_stream::{NextSpan, Scanner};
use std::alloc::Global;
use std::marker::Model;
use x25_check::Extras;

/// A reader of one log, which contracts see as the bytes that it holds: those taken that are in no event yet, at most
/// 65,824. A `Scanner` holds them, and is asked for no frame.
#[derive(Drop)]
pub(crate) struct LogScanner {
    extras: Extras,
    window: Scanner,
    ended: bool,
}

impl Model for LogScanner {
    ghost use Rattle.log_rows.specs.Progress.{LogHeld};

    ghost Value = { LogHeld };

    ghost view = { λ s. record { extras = s.extras; bytes = s.window.bytes; ended = s.ended } };
}

// Drops definitions in a function that owns nothing else.
pub(crate) fn discard(_known: Dialect) {}

impl LogScanner {
    pub(crate) fn new(alloc: Global, extras: Extras) -> Result<LogScanner, NoMemory>
        ensures { IfOk result (λ scanner. scanner ≡ no_bytes_held extras) }
    {
        let window = Scanner::new(alloc, extras.copy()?, true)?;
        Ok(LogScanner {
            extras,
            window,
            ended: false,
        })
    }

    /// A reader of frames that have these messages.
    pub(crate) fn of(alloc: Global, known: &Dialect) -> Result<LogScanner, NoMemory>
        ensures { IfOk result (λ scanner. scanner ≡ no_bytes_held (extras_of known.now)) }
    {
        LogScanner::new(alloc, known.extras().copy()?)
    }

    pub(crate) fn discard(self) {}

    /// Takes the next bytes, for which there is room.
    pub(crate) fn feed(&mut self, piece: &[u8])
        requires { length self.old.bytes + length piece.now ≤ 65824 }
        ensures { self.new ≡ record self.old { bytes = self.old.bytes ++ piece.now } }
    {
        self.window.feed(piece);
    }

    pub(crate) fn end(&mut self)
        ensures { self.new ≡ record self.old { ended = true } }
    {
        self.ended = true;
    }

    /// The bytes held.
    #[inline]
    pub(crate) fn bytes(&self) -> &[u8]
        ensures { result.now ≡ self.now.bytes }
    {
        self.window.bytes()
    }

    /// What is at the start of the bytes held: the frame of a row with its time, a byte that is in no row, or nothing
    /// before more bytes come.
    #[inline]
    pub(crate) fn next_span(&self) -> NextSpan
        ensures { IsNextOfLog self.now result }
    {
        match row_span(&self.extras, self.ended, self.window.bytes()) {
            RowSpan::Row(size) => NextSpan::Frame(size),
            RowSpan::Skipped(why) => NextSpan::Skipped(why, 1),
            RowSpan::Need => NextSpan::Need,
        }
    }

    /// Removes bytes from the start, once their events were seen.
    #[inline]
    pub(crate) fn consume(&mut self, count: usize)
        requires { count ≤ length self.old.bytes }
        ensures { self.new ≡ record self.old { bytes = drop count self.old.bytes } }
    {
        self.window.consume(count);
    }
}
