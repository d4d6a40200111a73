// The rows of a log that were read, whose frames are handed out.
ghost use Rattle.std.specs.Prelude.{◌≡◌, ◌<◌, ◌≤◌, ◌+◌, ◌++◌, ℕ, List, [], length, take, drop, false, true};
ghost use Rattle.mav_ports.specs.Gets.{given, GivesWithin};
ghost use Rattle.log_rows.specs.Frames.{frames_left, log_frames, nothing_read, Gives, NoRowHeld};

use crate::{RowSpan, row_span};
use mav_ports::Got;
use mav_stream::Window;
use std::marker::Model;
use x25_check::Extras;

// As many bytes as the time of a row has.
const TIME_BYTES: usize = 8;

// A piece of the log after the start of a row.
const ROOM: usize = 4_384;

/// A reader of a log that hands out the frames of its rows; `frame` is how many bytes at the start of the window are
/// of a frame that isn't handed out whole.
#[derive(Drop)]
pub(crate) struct Rows {
    extras: Extras,
    window: Window<ROOM>,
    frame: usize,
    ended: bool,
}

impl Model for Rows {
    ghost use Rattle.std.specs.Prelude.{◌≤◌, length, take, drop};
    ghost use Rattle.log_rows.specs.Frames.{RowsHeld};

    ghost Value = { RowsHeld };

    ghost view = { λ r. record {
      extras = r.extras;
      frame = take r.frame r.window;
      bytes = drop r.frame r.window;
      ended = r.ended;
    } };

    ghost invariant = { λ r. r.frame ≤ length r.window };
}

// Removes what is before the next frame of a log, and returns the frame's length, or 0 if no row is held.
fn next_frame(extras: &Extras, ended: bool, window: &mut Window<ROOM>) -> usize
    ensures within { result ≤ length window.new }
    ensures left { (rest : List ℕ) → (ended ≡ true → rest ≡ []) → log_frames extras.now (window.old ++ rest)
        ≡ take result window.new ++ log_frames extras.now (drop result window.new ++ rest) }
    ensures short { result ≡ 0 → length window.new < 288 }
    ensures over { result ≡ 0 → ended ≡ true → window.new ≡ [] }
{
    loop {
        match row_span(extras, ended, window.bytes()) {
            RowSpan::Row(size) => {
                window.remove(TIME_BYTES);
                return size - TIME_BYTES;
            }
            RowSpan::Skipped(_) => window.remove(1),
            RowSpan::Need => return 0,
        }
    }
}

impl Rows {
    /// Before the first byte of the log.
    pub(crate) fn new(extras: Extras) -> Rows
        ensures { result ≡ nothing_read extras }
    {
        Rows {
            extras,
            window: Window::new(),
            frame: 0,
            ended: false,
        }
    }

    // Finds the next frame, if none is handed out already: whether there is one.
    fn find(&mut self) -> bool
        ensures left { (rest : List ℕ) → (self.old.ended ≡ true → rest ≡ [])
            → frames_left self.old rest ≡ frames_left self.new rest }
        ensures ended { self.new.ended ≡ self.old.ended }
        ensures found { result ≡ true → 0 < length self.new.frame }
        ensures none { result ≡ false → NoRowHeld self.new }
    {
        if self.frame == 0 {
            self.frame = next_frame(&self.extras, self.ended, &mut self.window);
        }
        self.frame > 0
    }

    // Hands out the frame, or as much of it as there is room for, and returns how many bytes that is.
    fn hand_out(&mut self, buf: &mut [u8]) -> usize
        requires frame { 0 < length self.old.frame }
        requires room { 0 < length buf.old }
        ensures some { 0 < result }
        ensures within { result ≤ length buf.new }
        ensures length { length buf.new ≡ length buf.old }
        ensures frame { self.old.frame ≡ take result buf.new ++ self.new.frame }
        ensures bytes { self.new.bytes ≡ self.old.bytes }
        ensures extras { self.new.extras ≡ self.old.extras }
        ensures ended { self.new.ended ≡ self.old.ended }
    {
        let count = self.frame.min(buf.len());
        buf[..count].copy_from_slice(&self.window.bytes()[..count]);
        self.window.remove(count);
        self.frame -= count;
        count
    }

    // Hands out the frames of the rows held, as far as there is room for, and returns how many bytes they have.
    fn give(&mut self, buf: &mut [u8]) -> usize
        requires { 0 < length buf.old }
        ensures within { result ≤ length buf.new }
        ensures left { (rest : List ℕ) → (self.old.ended ≡ true → rest ≡ [])
            → frames_left self.old rest ≡ take result buf.new ++ frames_left self.new rest }
        ensures ended { self.new.ended ≡ self.old.ended }
        ensures none { result ≡ 0 → NoRowHeld self.new }
        ensures length { length buf.new ≡ length buf.old }
    {
        let mut count = 0;
        while count < buf.len() && self.find() {
            count += self.hand_out(&mut buf[count..]);
        }
        count
    }

    /// Hands out the frames of the rows held: End if the log has ended and none is left, and Idle if more bytes are
    /// needed.
    pub(crate) fn at_hand(&mut self, buf: &mut [u8]) -> Got
        requires { 0 < length buf.old }
        ensures gives { Gives (self.old.ended ≡ true) [] self.old self.new result buf.new }
        ensures ended { self.new.ended ≡ self.old.ended }
        ensures length { length buf.new ≡ length buf.old }
        ensures works { result ≡ Got.Failed → ⊥ }
    {
        let count = self.give(buf);
        if count > 0 {
            return Got::Bytes(count);
        }
        if self.ended { Got::End } else { Got::Idle }
    }

    /// Takes what a read of the log gave, and hands out the frames of the rows held then; Failed if the read failed.
    pub(crate) fn take(&mut self, got: Got, piece: &[u8; 4096], buf: &mut [u8]) -> Got
        requires within { GivesWithin got piece.now }
        requires held { NoRowHeld self.old }
        requires reads { self.old.ended ≡ false }
        requires room { 0 < length buf.old }
        ensures gives { (got ≡ Got.Failed → ⊥)
            → Gives (got ≡ Got.End) (given got piece.now) self.old self.new result buf.new }
        ensures ends { got ≡ Got.End → self.new.ended ≡ true }
        ensures goes_on { (got ≡ Got.End → ⊥) → self.new.ended ≡ false }
        ensures length { length buf.new ≡ length buf.old }
        ensures failed { got ≡ Got.Failed → result ≡ Got.Failed }
        ensures works { (got ≡ Got.Failed → ⊥) → result ≡ Got.Failed → ⊥ }
        ensures same { got ≡ Got.Failed → self.new ≡ self.old }
    {
        match got {
            Got::Bytes(count) => {
                let _count = self.window.append(&piece[..count]);
            }
            Got::Idle => {}
            Got::End => self.ended = true,
            Got::Failed => return Got::Failed,
        }
        self.at_hand(buf)
    }
}
