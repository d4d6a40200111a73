// What `log filter` tells of a log.
ghost use Rattle.std.specs.Prelude.{◌≡◌, ◌≤◌, ◌++◌, length, drop, true, OnOk, OnErr, IfOk};
ghost use Rattle.mav_profile.specs.Messages.{extras_of};
ghost use Rattle.mav_frame.specs.Looks.{frame_size_at, is_old_at};
ghost use Rattle.log_rows.specs.LogParse.{RowEvent};
ghost use Rattle.log_rows.specs.Progress.{no_bytes_held};
ghost use Rattle.log_rows.specs.Rows.{first_row};
ghost use Rattle.mav_log.specs.RowsMade.{row_of};
ghost use Rattle.mav_log.specs.Tellers.{IsRowOf};

use crate::scanner::{LogScanner, discard};
use decode_command::Teller;
use dialect::Dialect;
use mav_frame::{OLD_STX, Why};
use mav_ports::NoMemory;
use mav_stream::NextSpan;
use std::alloc::Global;
use std::marker::Model;

/// A log of which some bytes were taken, and the system whose rows are kept.
#[derive(Drop)]
pub(crate) struct Filter {
    known: Dialect,
    sys: u8,
    reader: LogScanner,
}

impl Model for Filter {
    ghost use Rattle.mav_log.specs.Tellers.{Filtering};

    ghost Value = { Filtering };

    ghost view = { λ f. record { known = f.known; sys = f.sys; reader = f.reader } };
}

// The system of the row at the start of some bytes.
#[inline]
fn system_of(bytes: &[u8]) -> u8
    requires long { 8 ≤ length bytes.now }
    requires frame { frame_size_at (is_old_at true (drop 8 bytes.now)) (drop 8 bytes.now) ≤ length (drop 8 bytes.now) }
    ensures { result ≡ (first_row bytes.now).frame.from.sys }
{
    let frame = &bytes[8..];
    if frame[0] == OLD_STX {
        frame[3]
    } else {
        frame[5]
    }
}

impl Filter {
    pub(crate) fn new(alloc: Global, known: Dialect, sys: u8) -> Result<Filter, NoMemory>
        ensures { IfOk result (λ filter. filter ≡ record
            { known = known; sys = sys; reader = no_bytes_held (extras_of known) }) }
    {
        match LogScanner::of(alloc, &known) {
            Ok(reader) => Ok(Filter { known, sys, reader }),
            Err(fault) => {
                discard(known);
                Err(fault)
            }
        }
    }

    pub(crate) fn discard(self) {}

    #[inline]
    fn keep_row(&mut self, size: usize, text: &mut Vec<u8>) -> Result<(), NoMemory>
        requires size { size ≤ length self.old.reader.bytes }
        requires row { IsRowOf self.old.reader.bytes size }
        ensures text { OnOk result (text.new.items ≡ text.old.items ++ row_of self.old.sys
            (RowEvent (first_row self.old.reader.bytes))) }
        ensures kept { OnOk result (self.new ≡ record self.old
            { reader = record self.old.reader { bytes = drop size self.old.reader.bytes } }) }
        ensures unkept { OnErr result (self.new ≡ self.old) }
    {
        let bytes = self.reader.bytes();
        if system_of(bytes) == self.sys {
            text.extend_from_slice(&bytes[..size])?;
        }
        self.reader.consume(size);
        Ok(())
    }
}

impl Teller for Filter {
    ghost use Rattle.std.specs.Prelude.{◌≡◌, length};
    ghost use Rattle.mav_log.specs.Tellers.{IsNextOfLog, HasKept};
    ghost use Rattle.mav_log.specs.Spec.{filter_telling};
    ghost use Rattle.mav_log.specs.TellingLaws.{kept_leads};

    ghost telling = { λ f. filter_telling f.known f.sys };

    ghost has_told = { HasKept };

    ghost has_told_all = { λ f ended taken told. told ≡ (filter_telling f.known f.sys).told ended taken };

    ghost begins = { λ f. IsNextOfLog f.reader };

    ghost held = { λ f. length f.reader.bytes };

    ghost load = { λ f. 0 };

    ghost leads = { kept_leads };

    ghost all_told = { λ f ended taken told is. is };

    fn feed(&mut self, piece: &[u8]) {
        self.reader.feed(piece);
    }

    fn end(&mut self) {
        self.reader.end();
    }

    #[inline]
    fn next_span(&self) -> NextSpan {
        self.reader.next_span()
    }

    #[inline]
    fn tell_event(&mut self, size: usize, text: &mut Vec<u8>) -> Result<(), NoMemory> {
        self.keep_row(size, text)
    }

    fn tell_skips(
        &mut self,
        _why: Why,
        _count: usize,
        _text: &mut Vec<u8>,
    ) -> Result<(), NoMemory> {
        self.reader.consume(1);
        Ok(())
    }

    fn close(&self, _text: &mut Vec<u8>) -> Result<(), NoMemory> {
        Ok(())
    }
}
