// The reader of a stream.
ghost use Rattle.std.specs.Prelude.{◌≡◌, ◌<◌, ◌++◌, ℕ, Bool, List, [], length, drop, slice_index};
ghost use Rattle.mav_frame.specs.declared.events.Event.{Event};
ghost use Rattle.mav_stream.specs.Held.{nothing_held};
ghost use Rattle.mav_stream.specs.Nexts.{NextIs, HasRoomAfter, given_by};
ghost use Rattle.mav_stream.specs.Progress.{Progress, WholeAtNeed, Feeds, Ends};

use crate::Next;
use crate::window::Window;
use mav_frame::{FrameCheck, Why, check_frame, frame_at};
use std::marker::Model;
use x25_check::Extras;

// As many bytes as the longest frame has.
const ROOM: usize = 280;

/// A reader of one stream, which contracts see as the bytes that it holds: those taken that are in no event yet, at
/// most 280.
#[derive(Drop)]
pub struct Reader {
    extras: Extras,
    reads_old: bool,
    window: Window<ROOM>,
    ended: bool,
}

impl Model for Reader {
    ghost use Rattle.mav_stream.specs.Held.{Held};

    ghost Value = { Held };

    ghost view = { λ r. record { extras = r.extras; reads_old = r.reads_old; bytes = r.window; ended = r.ended } };
}

impl Reader {
    /// A reader of frames whose messages have these CRC_EXTRA bytes; `old` says whether frames of MAVLink 1 are read
    /// too.
    pub fn new(extras: Extras, old: bool) -> Reader
        ensures new { result ≡ nothing_held extras old }
        ensures progress { Progress extras old [] [] result }
    {
        Reader {
            extras,
            reads_old: old,
            window: Window::new(),
            ended: false,
        }
    }

    /// Takes as many bytes as fit after those held, and returns how many. It isn't called after `end`.
    pub fn feed(&mut self, piece: &[u8]) -> usize
        ensures { Feeds 280 self.old piece.now result self.new }
    {
        self.window.append(piece)
    }

    /// The input has ended: what is left of it is in frames, or is skipped byte by byte.
    pub fn end(&mut self)
        ensures { Ends self.old self.new }
    {
        self.ended = true;
    }

    /// The next event of the stream.
    pub fn next(&mut self) -> Next
        ensures next { NextIs self.old result self.new }
        // Fewer bytes are held, or there is room for more.
        ensures room { HasRoomAfter self.old result self.new }
        // The events given and this one are a prefix of the parse.
        ensures progress { (extras : List (ℕ × ℕ)) (reads_old : Bool) (taken : List ℕ) (given : List Event)
            → Progress extras reads_old taken given self.old
            → Progress extras reads_old taken (given ++ given_by result) self.new }
        // At Need all of it was given.
        ensures whole { (extras : List (ℕ × ℕ)) (reads_old : Bool) (taken : List ℕ) (given : List Event)
            → Progress extras reads_old taken given self.old
            → WholeAtNeed extras reads_old taken given result self.new }
    {
        let _held = self.window.bytes();
        self.step()
    }

    #[inline(never)]
    fn step(&mut self) -> Next
        ensures { NextIs self.old result self.new }
    {
        let bytes = self.window.bytes();
        match check_frame(&self.extras, self.reads_old, bytes) {
            FrameCheck::Whole(size) => {
                let frame = frame_at(self.reads_old, bytes);
                self.window.remove(size);
                Next::Frame(frame)
            }
            FrameCheck::NotHere(why) => self.skip(why),
            FrameCheck::More(_) => {
                if !self.ended || self.window.bytes().is_empty() {
                    return Next::Need;
                }
                self.skip(Why::Short)
            }
        }
    }

    // Skips the first byte.
    #[inline(always)]
    fn skip(&mut self, why: Why) -> Next
        requires { 0 < length self.old.bytes }
        ensures answer { result ≡ Next.Skipped (slice_index self.old.bytes 0) why }
        ensures held { self.new ≡ record self.old { bytes = drop 1 self.old.bytes } }
    {
        let byte = self.window.bytes()[0];
        self.window.remove(1);
        Next::Skipped(byte, why)
    }
}
