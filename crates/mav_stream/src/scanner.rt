// The scanner of a stream.
ghost use Rattle.std.specs.Prelude.{◌≡◌, ◌≤◌, length, drop, IfOk};
ghost use Rattle.mav_stream.specs.Held.{nothing_held};
ghost use Rattle.mav_stream.specs.Progress.{Feeds, Ends};
ghost use Rattle.mav_stream.specs.Spans.{first_packet, next_span, IsNextSpan};

use crate::NoMemory;
use crate::scan::Scan;
use crate::spans::NextSpan;
use crate::table::ExtrasTable;
use crate::window::Window;
use mav_frame::RawFrame;
use std::alloc::Global;
use std::marker::Model;
use x25_check::Extras;

// A piece of 65,536 bytes after the start of a frame, or of a row of a log.
const ROOM: usize = 65_824;

/// A reader of one stream, which contracts see as the bytes that it holds: those taken that are in no event yet, at
/// most 65,824.
#[derive(Drop)]
pub struct Scanner {
    table: ExtrasTable,
    reads_old: bool,
    window: Box<Window<ROOM>>,
    ended: bool,
}

impl Model for Scanner {
    ghost use Rattle.mav_stream.specs.Held.{Held};

    ghost Value = { Held };

    ghost view = { λ s. record {
      extras = s.table;
      reads_old = s.reads_old;
      bytes = s.window.value;
      ended = s.ended;
    } };
}

impl Scanner {
    /// A reader of frames whose messages have these CRC_EXTRA bytes; `old` says whether frames of MAVLink 1 are read
    /// too.
    pub fn new(alloc: Global, extras: Extras, old: bool) -> Result<Scanner, NoMemory>
        ensures { IfOk result (λ scanner. scanner ≡ nothing_held extras old) }
    {
        let table = ExtrasTable::new(alloc, extras)?;
        let window = Box::new(alloc, Window::new())?;
        Ok(Scanner {
            table,
            reads_old: old,
            window,
            ended: false,
        })
    }

    /// Takes as many bytes as fit after those held, and returns how many. It isn't called after `end`.
    pub fn feed(&mut self, piece: &[u8]) -> usize
        ensures { Feeds 65824 self.old piece.now result self.new }
    {
        self.window.append(piece)
    }

    /// The input has ended: what is left of it is in frames, or is skipped byte by byte.
    pub fn end(&mut self)
        ensures { Ends self.old self.new }
    {
        self.ended = true;
    }

    /// The bytes held.
    #[inline]
    pub fn bytes(&self) -> &[u8]
        ensures { result.now ≡ self.now.bytes }
    {
        self.window.bytes()
    }

    /// What is at the start of the bytes held.
    #[inline]
    pub fn next_span(&self) -> NextSpan
        ensures { IsNextSpan self.now result }
    {
        self.scan().next_span()
    }

    /// The frame at the start as the bytes that encode it, if `next_span` says that one of that length is there.
    #[inline]
    pub fn raw_frame(&self, size: usize) -> RawFrame<'_>
        requires { next_span self.now ≡ NextSpan.Frame size }
        ensures { result ≡ first_packet self.now }
    {
        self.scan().raw_frame(size)
    }

    /// Removes bytes from the start, once their events were seen.
    #[inline]
    pub fn consume(&mut self, count: usize)
        requires { count ≤ length self.old.bytes }
        ensures { self.new ≡ record self.old { bytes = drop count self.old.bytes } }
    {
        self.window.remove(count);
    }

    // The same bytes, where they stand.
    #[inline(always)]
    fn scan(&self) -> Scan<'_, '_>
        ensures { result ≡ self.now }
    {
        Scan::over(&self.table, self.reads_old, self.window.bytes(), self.ended)
    }
}
