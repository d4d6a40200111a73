// The reader of a log.
ghost use Rattle.std.specs.Prelude.{◌≡◌, ◌-◌, ◌<◌, ◌++◌, ℕ, List, [], length, take, min, true, false};
ghost use Rattle.log_rows.specs.LogParse.{LogEvent};
ghost use Rattle.log_rows.specs.Progress.{LogHeld, LogProgress, no_bytes_held};
ghost use Rattle.log_rows.specs.LogNexts.{next_row, held_after, given_by, HasRoomAfter, WholeAtNeed};

use crate::rows::{Row, row_at};
use crate::spans::{RowSpan, row_span};
use mav_frame::Why;
use mav_stream::Window;
use std::marker::Model;
use x25_check::Extras;

/// A row, a skipped byte and why no row begins there, or the need for more bytes.
#[derive(Clone, Copy)]
pub enum LogNext {
    Row(Row),
    Skipped(u8, Why),
    Need,
}

// As many bytes as the longest row has.
const ROOM: usize = 288;

/// A reader of one log, which contracts see as the bytes that it holds: those taken that are in no event yet, at most
/// 288.
#[derive(Drop)]
pub struct LogReader {
    extras: Extras,
    window: Window<ROOM>,
    ended: bool,
}

impl Model for LogReader {
    ghost use Rattle.log_rows.specs.Progress.{LogHeld};

    ghost Value = { LogHeld };

    ghost view = { λ r. record { extras = r.extras; bytes = r.window; ended = r.ended } };
}

impl LogReader {
    /// A reader of rows whose messages have these CRC_EXTRA bytes.
    pub fn new(extras: Extras) -> LogReader
        ensures new { result ≡ no_bytes_held extras }
        ensures progress { LogProgress extras [] [] result }
    {
        LogReader {
            extras,
            window: Window::new(),
            ended: false,
        }
    }

    /// Takes as many bytes as fit after those held, and returns how many. It isn't called after `end`.
    pub fn feed(&mut self, piece: &[u8]) -> usize
        ensures count { result ≡ min (length piece.now) (288 - length self.old.bytes) }
        ensures held { self.new ≡ record self.old { bytes = self.old.bytes ++ take result piece.now } }
        // The events given are a prefix of the parse of all bytes taken.
        ensures progress { (extras : List (ℕ × ℕ)) (taken : List ℕ) (given : List LogEvent) → self.old.ended ≡ false
            → LogProgress extras taken given self.old
            → LogProgress extras (taken ++ take result piece.now) given self.new }
    {
        self.window.append(piece)
    }

    /// The input has ended: what is left of it is in rows, or is skipped byte by byte.
    pub fn end(&mut self)
        ensures held { self.new ≡ record self.old { ended = true } }
        ensures progress { (extras : List (ℕ × ℕ)) (taken : List ℕ) (given : List LogEvent)
            → LogProgress extras taken given self.old → LogProgress extras taken given self.new }
    {
        self.ended = true;
    }

    /// The next row of the log, or byte that is in none.
    pub fn next(&mut self) -> LogNext
        ensures next { result ≡ next_row self.old }
        ensures held { self.new ≡ held_after self.old }
        // Fewer bytes are held, or there is room for more.
        ensures room { HasRoomAfter self.old result self.new }
        // The events given and this one are a prefix of the parse.
        ensures progress { (extras : List (ℕ × ℕ)) (taken : List ℕ) (given : List LogEvent)
            → LogProgress extras taken given self.old → LogProgress extras taken (given ++ given_by result) self.new }
        // At Need all of it was given.
        ensures whole { (extras : List (ℕ × ℕ)) (taken : List ℕ) (given : List LogEvent)
            → LogProgress extras taken given self.old → WholeAtNeed extras taken given result self.old }
    {
        match row_span(&self.extras, self.ended, self.window.bytes()) {
            RowSpan::Row(size) => {
                let row = row_at(self.window.bytes());
                self.window.remove(size);
                LogNext::Row(row)
            }
            RowSpan::Skipped(why) => {
                let byte = self.window.bytes()[0];
                self.window.remove(1);
                LogNext::Skipped(byte, why)
            }
            RowSpan::Need => LogNext::Need,
        }
    }
}
