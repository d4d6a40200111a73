// The calls over logs that end with a status of their own, and the reader of rows in small pieces, which no command of
// the program makes.
ghost use Rattle.std.specs.Prelude.{◌<◌};

use dialect::Dialect;
use log_rows::{LogNext, LogReader, put_row};
use mav_log::{filter, make, show};
use mav_ports::{Sink, SureSink, SureSource};
use std::alloc::{AllocError, Global};
use std::test::Fail;

// Garbage, a HEARTBEAT and a MISSION_CURRENT of 1.1.
const CAPTURE: [u8; 35] = [
    0x00, 0xFD, 0x09, 0x00, 0x00, 0x00, 0x01, 0x01, 0x00, 0x00, 0x00, 0x00, 0x00, 0x00, 0x00, 0x02,
    0x03, 0x51, 0x04, 0x03, 0xE7, 0x1E, 0xFD, 0x01, 0x00, 0x00, 0x01, 0x01, 0x01, 0x2A, 0x00, 0x00,
    0x00, 0x2F, 0x49,
];

// Its frames as rows at 1,000,000 and 1,001,000 microseconds.
const LOG: [u8; 50] = [
    0x00, 0x00, 0x00, 0x00, 0x00, 0x0F, 0x42, 0x40, 0xFD, 0x09, 0x00, 0x00, 0x00, 0x01, 0x01, 0x00,
    0x00, 0x00, 0x00, 0x00, 0x00, 0x00, 0x02, 0x03, 0x51, 0x04, 0x03, 0xE7, 0x1E, 0x00, 0x00, 0x00,
    0x00, 0x00, 0x0F, 0x46, 0x28, 0xFD, 0x01, 0x00, 0x00, 0x01, 0x01, 0x01, 0x2A, 0x00, 0x00, 0x00,
    0x2F, 0x49,
];

const SHOWN: &[u8] =
    b"0 1000000 HEARTBEAT 1.1 #0 type=2 autopilot=3 base_mode=81 custom_mode=0 system_status=4 mavlink_version=3\n29 1001000 MISSION_CURRENT 1.1 #1 seq=0\nrows 2 skipped 0\n";

fn is_made(alloc: Global, room: usize, status: u8) -> Result<bool, AllocError> {
    let mut main = SureSource::new(CAPTURE.to_vec(alloc)?);
    let mut out = SureSink::with_room(alloc, room)?;
    let known = Dialect::profile(alloc)?;
    let ended = make(alloc, known, 1_000_000, &mut main, &mut out);
    Ok(ended == status && out.sent() == &LOG[..room.min(LOG.len())])
}

fn is_shown(alloc: Global) -> Result<bool, AllocError> {
    let mut main = SureSource::new(LOG.to_vec(alloc)?);
    let mut out = SureSink::with_room(alloc, 1000)?;
    let ended = show(alloc, Dialect::profile(alloc)?, &mut main, &mut out);
    Ok(ended == 0 && out.sent() == SHOWN)
}

fn is_filtered(alloc: Global, sys: u8, wanted: &[u8]) -> Result<bool, AllocError> {
    let mut main = SureSource::new(LOG.to_vec(alloc)?);
    let mut out = SureSink::with_room(alloc, 1000)?;
    let ended = filter(alloc, Dialect::profile(alloc)?, sys, &mut main, &mut out);
    Ok(ended == 0 && out.sent() == wanted)
}

#[test]
fn logs_are_made_shown_and_filtered(rt: HostRuntime) -> Result<(), Fail> {
    let alloc = rt.alloc();
    assert!(rt; is_made(alloc, 1000, 0)? && is_made(alloc, 30, 5)?);
    assert!(rt; is_shown(alloc)? && is_filtered(alloc, 1, &LOG)? && is_filtered(alloc, 2, &[])?);
    Ok(())
}

// Appends the bytes of the next row, if the reader has one, and returns how many bytes it skipped.
fn append_next(reader: &mut LogReader, rows: &mut Vec<u8>) -> Result<usize, AllocError> {
    match reader.next() {
        LogNext::Row(row) => {
            let mut bytes = [0; 288];
            let size = put_row(&row, &mut bytes);
            rows.extend_from_slice(&bytes[..size])?;
            Ok(0)
        }
        LogNext::Skipped(_, _) => Ok(1),
        LogNext::Need => Ok(0),
    }
}

// Whether the rows that are read in pieces of this size are those of the log.
fn is_read_back(alloc: Global, size: usize) -> Result<bool, AllocError>
    requires { 0 < size }
{
    let mut reader = LogReader::new(Dialect::profile(alloc)?.extras().copy()?);
    let mut rows = Vec::new(alloc);
    for piece in LOG.chunks(size) {
        if reader.feed(piece) < piece.len() || append_next(&mut reader, &mut rows)? > 0 {
            return Ok(false);
        }
    }
    reader.end();
    Ok(append_next(&mut reader, &mut rows)? == 0 && rows.as_slice() == LOG.as_slice())
}

#[test]
fn rows_read_in_pieces_are_those_written(rt: HostRuntime) -> Result<(), Fail> {
    assert!(rt; is_read_back(rt.alloc(), 1)? && is_read_back(rt.alloc(), 7)?);
    Ok(())
}
