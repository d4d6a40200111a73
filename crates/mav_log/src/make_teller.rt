// What `log make` tells of a stream of frames.
ghost use Rattle.std.specs.Prelude.{◌≡◌, ◌+◌, ◌*◌, ◌<◌, ◌≤◌, ◌++◌, length, take, drop, true, OnOk, OnErr, IfOk};
ghost use Rattle.mav_profile.specs.Messages.{extras_of};
ghost use Rattle.mav_frame.specs.Encoding.{encoding};
ghost use Rattle.mav_stream.specs.Spans.{first_packet};
ghost use Rattle.mav_stream.specs.Held.{nothing_held};
ghost use Rattle.log_rows.specs.Rows.{row_encoding};
ghost use Rattle.decode_command.specs.Tellings.{most_load};

use crate::scanner::discard;
use decode_command::{Teller, scanner_of};
use dialect::Dialect;
use mav_frame::Why;
use mav_ports::NoMemory;
use mav_stream::{NextSpan, Scanner};
use std::alloc::Global;
use std::marker::Model;

/// How many microseconds there are from one row to the next.
const INTERVAL: u64 = 1_000;

/// A stream of which some bytes were taken, and how many of its frames were made to rows.
#[derive(Drop)]
pub(crate) struct Make {
    known: Dialect,
    start: u64,
    reader: Scanner,
    rows: u64,
}

impl Model for Make {
    ghost use Rattle.std.specs.Prelude.{◌≤◌};
    ghost use Rattle.mav_log.specs.Tellers.{Making};

    ghost Value = { Making };

    ghost view = { λ m. record { known = m.known; start = m.start; reader = m.reader; rows = m.rows } };

    ghost invariant = { λ m. m.start ≤ 4000000000000000 };
}

impl Make {
    pub(crate) fn new(alloc: Global, known: Dialect, start: u64) -> Result<Make, NoMemory>
        requires { start ≤ 4000000000000000 }
        ensures { IfOk result (λ make. make ≡ record
            { known = known; start = start; reader = nothing_held (extras_of known) true; rows = 0 }) }
    {
        match scanner_of(alloc, &known) {
            Ok(reader) => Ok(Make {
                known,
                start,
                reader,
                rows: 0,
            }),
            Err(fault) => {
                discard(known);
                Err(fault)
            }
        }
    }

    pub(crate) fn discard(self) {}

    // Adds the frame at the start of what is held as a row.
    #[inline]
    fn make_row(&mut self, size: usize, text: &mut Vec<u8>) -> Result<(), NoMemory>
        requires size { size ≤ length self.old.reader.bytes }
        requires frame { take size self.old.reader.bytes ≡ encoding (first_packet self.old.reader) }
        requires few { self.old.rows ≤ most_load }
        ensures text { OnOk result (text.new.items ≡ text.old.items ++ row_encoding
            (record { micros = self.old.start + 1000 * self.old.rows; frame = first_packet self.old.reader })) }
        ensures made { OnOk result (self.new ≡ record self.old {
          reader = record self.old.reader { bytes = drop size self.old.reader.bytes };
          rows = self.old.rows + 1;
        }) }
        ensures unmade { OnErr result (self.new ≡ self.old) }
    {
        let micros = self.start + INTERVAL * self.rows;
        text.extend_from_slice(&micros.to_be_bytes())?;
        text.extend_from_slice(&self.reader.bytes()[..size])?;
        self.reader.consume(size);
        self.rows += 1;
        Ok(())
    }
}

impl Teller for Make {
    ghost use Rattle.std.specs.Prelude.{◌≡◌, ◌+◌, ◌*◌, length};
    ghost use Rattle.mav_stream.specs.Spans.{IsNextSpan};
    ghost use Rattle.mav_log.specs.Tellers.{HasMade};
    ghost use Rattle.mav_log.specs.Spec.{make_telling};
    ghost use Rattle.mav_log.specs.TellingLaws.{made_leads};

    ghost telling = { λ m. make_telling m.known m.start };

    ghost has_told = { HasMade };

    ghost has_told_all = { λ m ended taken told. told ≡ (make_telling m.known m.start).told ended taken };

    ghost begins = { λ m. IsNextSpan m.reader };

    ghost held = { λ m. length m.reader.bytes };

    ghost load = { λ m. m.rows + 3 * length m.reader.bytes };

    ghost leads = { made_leads };

    ghost all_told = { λ m ended taken told is. is };

    fn feed(&mut self, piece: &[u8]) {
        self.reader.feed(piece);
    }

    fn end(&mut self) {
        self.reader.end();
    }

    #[inline]
    fn next_span(&self) -> NextSpan {
        self.reader.next_span()
    }

    #[inline]
    fn tell_event(&mut self, size: usize, text: &mut Vec<u8>) -> Result<(), NoMemory> {
        self.make_row(size, text)
    }

    fn tell_skips(&mut self, _why: Why, count: usize, _text: &mut Vec<u8>) -> Result<(), NoMemory> {
        self.reader.consume(count);
        Ok(())
    }

    fn close(&self, _text: &mut Vec<u8>) -> Result<(), NoMemory> {
        Ok(())
    }
}
