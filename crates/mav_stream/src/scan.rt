// What is at the start of some bytes of a stream.
ghost use Rattle.std.specs.Prelude.{◌≡◌, ◌<◌, ◌≤◌, ℕ, length, drop};
ghost use Rattle.mav_frame.specs.Looks.{is_old_at, look_by, look_of};
ghost use Rattle.mav_frame.specs.declared.looks.Look.TheVariants.{More, NotHere};
ghost use Rattle.mav_stream.specs.Held.{Held};
ghost use Rattle.mav_stream.specs.Spans.{first_packet, next_span, span_by, IsNextSpan};

use crate::skips::skipped_length;
use crate::spans::NextSpan;
use crate::table::ExtrasTable;
use crate::window::as_bytes;
use mav_frame::{FrameCheck, RawFrame, Why, check_frame};
use std::marker::Model;

/// Bytes of a stream where they stand, which contracts see as held by their reader. Frames are found in them, and
/// taken off from their start.
#[derive(Drop)]
pub struct Scan<'t, 'b> {
    table: &'t ExtrasTable,
    reads_old: bool,
    bytes: &'b [u8],
    ended: bool,
}

impl<'t, 'b> Model for Scan<'t, 'b> {
    ghost use Rattle.mav_stream.specs.Held.{Held};

    ghost Value = { Held };

    ghost view = { λ s. record {
      extras = s.table.now;
      reads_old = s.reads_old;
      bytes = s.bytes.now;
      ended = s.ended;
    } };
}

impl<'t, 'b> Scan<'t, 'b> {
    #[inline(always)]
    pub(crate) fn over(
        table: &'t ExtrasTable,
        reads_old: bool,
        bytes: &'b [u8],
        ended: bool,
    ) -> Scan<'t, 'b>
        ensures { result ≡ record { extras = table.now; reads_old = reads_old; bytes = bytes.now; ended = ended } }
    {
        Scan {
            table,
            reads_old,
            bytes,
            ended,
        }
    }

    /// The bytes that are left.
    #[inline]
    pub fn bytes(&self) -> &'b [u8]
        ensures { result.now ≡ self.now.bytes }
    {
        self.bytes
    }

    /// What is at the start of the bytes.
    #[inline]
    pub fn next_span(&self) -> NextSpan
        ensures { IsNextSpan self.now result }
    {
        let _held = as_bytes(self.bytes);
        self.span()
    }

    /// The frame at the start as the bytes that encode it, if `next_span` says that one of that length is there.
    #[inline]
    pub fn raw_frame(&self, size: usize) -> RawFrame<'b>
        requires { next_span self.now ≡ NextSpan.Frame size }
        ensures { result ≡ first_packet self.now }
    {
        RawFrame::at(self.reads_old, self.bytes, size)
    }

    /// Takes bytes off from the start, once their events were seen.
    #[inline]
    pub fn consume(&mut self, count: usize)
        requires { count ≤ length self.old.bytes }
        ensures { self.new ≡ record self.old { bytes = drop count self.old.bytes } }
    {
        self.bytes = &self.bytes[count..];
    }

    #[inline(always)]
    fn span(&self) -> NextSpan
        ensures { result ≡ next_span self.now }
    {
        match self.check() {
            FrameCheck::Whole(size) => NextSpan::Frame(size),
            FrameCheck::NotHere(why) => self.skipped(why),
            FrameCheck::More(_) => self.lacking(),
        }
    }

    // What the bytes begin with.
    #[inline(always)]
    fn check(&self) -> FrameCheck
        ensures { look_by result (is_old_at self.now.reads_old self.now.bytes) self.now.bytes
            ≡ look_of self.now.extras self.now.reads_old self.now.bytes }
    {
        check_frame(self.table, self.reads_old, self.bytes)
    }

    // The result if no frame is at the start.
    #[inline(always)]
    fn skipped(&self, why: Why) -> NextSpan
        requires { 0 < length self.now.bytes }
        ensures { result ≡ span_by (NotHere why) self.now }
    {
        NextSpan::Skipped(
            why,
            skipped_length(why, self.table, self.reads_old, self.bytes),
        )
    }

    // The result if an incomplete frame is at the start, or nothing.
    fn lacking(&self) -> NextSpan
        ensures { (lacks : ℕ) → result ≡ span_by (More lacks) self.now }
    {
        if self.ended && !self.bytes.is_empty() {
            NextSpan::Skipped(Why::Short, 1)
        } else {
            NextSpan::Need
        }
    }
}
