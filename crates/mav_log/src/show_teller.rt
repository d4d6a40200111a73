// What `log show` tells of a log.
ghost use Rattle.std.specs.Prelude.{◌≡◌, ◌+◌, ◌<◌, ◌≤◌, ◌^◌, ◌++◌, length, drop, slice_index, true, OnOk, OnErr, IfOk};
ghost use Rattle.mav_profile.specs.Messages.{extras_of};
ghost use Rattle.mav_frame.specs.Looks.{frame_size_at, is_old_at};
ghost use Rattle.mav_text.specs.FrameText.{skip_line};
ghost use Rattle.log_rows.specs.Rows.{first_row, micros_at};
ghost use Rattle.log_rows.specs.Progress.{no_bytes_held};
ghost use Rattle.mav_log.specs.LogText.{row_line};

use crate::scanner::{LogScanner, discard};
use decode_command::{Teller, put_counts};
use dialect::Dialect;
use mav_frame::Why;
use mav_ports::NoMemory;
use mav_stream::NextSpan;
use mav_text::{Chunk, LineTemplates, put_decimal, put_skip};
use std::alloc::Global;
use std::marker::Model;

/// A log of which some bytes were taken, and the counts of its events so far.
#[derive(Drop)]
pub(crate) struct Show {
    templates: LineTemplates,
    reader: LogScanner,
    chunk: Chunk,
    /// The offset of the next event.
    offset: u64,
    rows: u64,
    skipped: u64,
}

impl Model for Show {
    ghost use Rattle.mav_log.specs.Tellers.{Showing};

    ghost Value = { Showing };

    ghost view = { λ s. record {
      known = s.templates;
      reader = s.reader;
      offset = s.offset;
      rows = s.rows;
      skipped =
          s.skipped;
    } };
}

// The time at the start of some bytes.
#[inline]
fn time_of(bytes: &[u8]) -> u64
    requires { 8 ≤ length bytes.now }
    ensures { result ≡ micros_at bytes.now }
{
    let mut time = [0; 8];
    time.copy_from_slice(&bytes[..8]);
    u64::from_be_bytes(time)
}

// The bytes after a time.
#[inline]
fn frame_of(bytes: &[u8]) -> &[u8]
    requires { 8 ≤ length bytes.now }
    ensures { result.now ≡ drop 8 bytes.now }
{
    &bytes[8..]
}

// Appends the line of the row at the start of some bytes.
fn put_row_line(
    templates: &LineTemplates,
    offset: u64,
    bytes: &[u8],
    chunk: &mut Chunk,
    text: &mut Vec<u8>,
) -> Result<(), NoMemory>
    requires long { 8 ≤ length bytes.now }
    requires frame { frame_size_at (is_old_at true (drop 8 bytes.now)) (drop 8 bytes.now) ≤ length (drop 8 bytes.now) }
    ensures { OnOk result (text.new.items ≡ text.old.items ++ row_line templates.now offset (first_row bytes.now)) }
{
    let micros = time_of(bytes);
    put_decimal(offset, text)?;
    text.push(b' ')?;
    templates.put_line(true, micros, frame_of(bytes), b"\n", chunk, text)
}

impl Show {
    pub(crate) fn new(alloc: Global, known: Dialect) -> Result<Show, NoMemory>
        ensures { IfOk result (λ show. show ≡ record
            { known = known; reader = no_bytes_held (extras_of known); offset = 0; rows = 0; skipped = 0 }) }
    {
        let reader = match LogScanner::of(alloc, &known) {
            Ok(reader) => reader,
            Err(fault) => {
                discard(known);
                return Err(fault);
            }
        };
        match LineTemplates::new(alloc, known) {
            Ok(templates) => Ok(Show {
                templates,
                reader,
                chunk: Chunk::new(),
                offset: 0,
                rows: 0,
                skipped: 0,
            }),
            Err(fault) => {
                reader.discard();
                Err(fault)
            }
        }
    }

    pub(crate) fn discard(self) {}

    fn show_row(&mut self, size: usize, text: &mut Vec<u8>) -> Result<(), NoMemory>
        requires size { size ≤ length self.old.reader.bytes }
        requires long { 8 ≤ length self.old.reader.bytes }
        requires frame { frame_size_at (is_old_at true (drop 8 self.old.reader.bytes))
            (drop 8 self.old.reader.bytes) ≤ length (drop 8 self.old.reader.bytes) }
        requires counts { self.old.offset + size < 2 ^ 64 × self.old.rows + 1 < 2 ^ 64 }
        ensures text { OnOk result (text.new.items ≡ text.old.items ++ row_line self.old.known self.old.offset
            (first_row self.old.reader.bytes)) }
        ensures unshown { OnErr result (self.new ≡ self.old) }
        ensures shown { OnOk result (self.new ≡ record self.old {
          reader = record self.old.reader { bytes = drop size self.old.reader.bytes };
          offset = self.old.offset +
              size;
          rows = self.old.rows + 1;
        }) }
    {
        put_row_line(
            &self.templates,
            self.offset,
            self.reader.bytes(),
            &mut self.chunk,
            text,
        )?;
        self.reader.consume(size);
        self.offset += size as u64;
        self.rows += 1;
        Ok(())
    }

    fn show_skip(&mut self, why: Why, text: &mut Vec<u8>) -> Result<(), NoMemory>
        requires some { 0 < length self.old.reader.bytes }
        requires counts { self.old.offset + 1 < 2 ^ 64 × self.old.skipped + 1 < 2 ^ 64 }
        ensures text { OnOk result (text.new.items ≡ text.old.items ++ skip_line self.old.offset
            (slice_index self.old.reader.bytes 0) why) }
        ensures unshown { OnErr result (self.new ≡ self.old) }
        ensures shown { OnOk result (self.new ≡ record self.old {
          reader = record self.old.reader { bytes = drop 1 self.old.reader.bytes };
          offset = self.old.offset + 1;
          skipped = self.old.skipped + 1;
        }) }
    {
        put_skip(self.offset, self.reader.bytes()[0], why, text)?;
        self.reader.consume(1);
        self.offset += 1;
        self.skipped += 1;
        Ok(())
    }
}

impl Teller for Show {
    ghost use Rattle.mav_log.specs.Tellers.{IsNextOfLog, HasShown, HasShownAll, shown_load};
    ghost use Rattle.mav_log.specs.Spec.{show_telling};
    ghost use Rattle.mav_log.specs.TellingLaws.{shown_leads, shown_all};

    ghost telling = { λ s. show_telling s.known };

    ghost has_told = { HasShown };

    ghost has_told_all = { HasShownAll };

    ghost begins = { λ s. IsNextOfLog s.reader };

    ghost held = { λ s. length s.reader.bytes };

    ghost load = { shown_load };

    ghost leads = { shown_leads };

    ghost all_told = { shown_all };

    fn feed(&mut self, piece: &[u8]) {
        self.reader.feed(piece);
    }

    fn end(&mut self) {
        self.reader.end();
    }

    #[inline]
    fn next_span(&self) -> NextSpan {
        self.reader.next_span()
    }

    #[inline]
    fn tell_event(&mut self, size: usize, text: &mut Vec<u8>) -> Result<(), NoMemory> {
        self.show_row(size, text)
    }

    fn tell_skips(&mut self, why: Why, _count: usize, text: &mut Vec<u8>) -> Result<(), NoMemory> {
        self.show_skip(why, text)
    }

    fn close(&self, text: &mut Vec<u8>) -> Result<(), NoMemory> {
        put_counts("rows ", self.rows, self.skipped, text)
    }
}
