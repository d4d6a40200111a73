// The reader of a stream whose bytes stay where their reads put them.
ghost use Rattle.std.specs.Prelude.{◌≡◌, ◌≤◌, length, IfOk};
ghost use Rattle.mav_stream.specs.Held.{nothing_held};
ghost use Rattle.mav_stream.specs.Progress.{Ends};

use crate::NoMemory;
use crate::scan::Scan;
use crate::table::ExtrasTable;
use crate::window::Window;
use std::alloc::Global;
use std::marker::Model;
use x25_check::Extras;

/// As many bytes as the longest frame has.
pub const MOST_HELD: usize = 280;

/// A reader of one stream, which contracts see as the bytes that it holds: those of a frame with which the last read
/// ended, at most 280. They go before what the next read gives, and a scan is made over both; what that leaves is
/// kept.
pub struct PieceReader {
    table: ExtrasTable,
    reads_old: bool,
    held: Window<MOST_HELD>,
    ended: bool,
}

// By hand, so that whoever drops a reader proves one call.
impl Drop for PieceReader {
    fn drop(self) {
        let PieceReader {
            table: _table,
            reads_old: _,
            held: _held,
            ended: _,
        } = self;
    }
}

impl Model for PieceReader {
    ghost use Rattle.mav_stream.specs.Held.{Held};

    ghost Value = { Held };

    ghost view = { λ r. record { extras = r.table; reads_old = r.reads_old; bytes = r.held; ended = r.ended } };
}

impl PieceReader {
    /// A reader of frames whose messages have these CRC_EXTRA bytes; `old` says whether frames of MAVLink 1 are read
    /// too.
    pub fn new(alloc: Global, extras: Extras, old: bool) -> Result<PieceReader, NoMemory>
        ensures { IfOk result (λ reader. reader ≡ nothing_held extras old) }
    {
        let table = ExtrasTable::new(alloc, extras)?;
        Ok(PieceReader {
            table,
            reads_old: old,
            held: Window::new(),
            ended: false,
        })
    }

    /// The bytes held.
    #[inline]
    pub fn held(&self) -> &[u8]
        ensures list { result.now ≡ self.now.bytes }
        ensures within { length result.now ≤ 280 }
    {
        self.held.bytes()
    }

    /// The input has ended: what is left of it is in frames, or is skipped byte by byte.
    pub fn end(&mut self)
        ensures { Ends self.old self.new }
    {
        self.ended = true;
    }

    /// What is at the start of these bytes, which are those held and those of a read after them.
    #[inline]
    pub fn scan<'t, 'b>(&'t self, bytes: &'b [u8]) -> Scan<'t, 'b>
        ensures { result ≡ record self.now { bytes = bytes.now } }
    {
        Scan::over(&self.table, self.reads_old, bytes, self.ended)
    }

    /// Holds what a scan left, in place of what was held.
    pub fn keep(&mut self, rest: &[u8])
        requires { length rest.now ≤ 280 }
        ensures { self.new ≡ record self.old { bytes = rest.now } }
    {
        self.held.clear();
        self.held.append(rest);
    }
}
