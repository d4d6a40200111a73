// A row, and its bytes.
ghost use Rattle.std.specs.Prelude.{◌≡◌, ℕ, ◌+◌, ◌≤◌, true, ◌++◌, length, take, drop};
ghost use Rattle.mav_frame.specs.Looks.{frame_size_at, is_old_at};
ghost use Rattle.log_rows.specs.Rows.{row_encoding, first_row, micros_at};

use mav_frame::{Frame, encode, frame_at, put};

/// As many bytes as a time has.
pub(crate) const TIME_BYTES: usize = 8;

/// A frame, and when it was received, in microseconds since 1970-01-01 00:00 UTC.
#[derive(Clone, Copy)]
pub struct Row {
    pub micros: u64,
    pub frame: Frame,
}

/// Writes the row's bytes to the start of `out`, and returns how many these are. The rest of `out` stays.
pub fn put_row(row: &Row, out: &mut [u8; 288]) -> usize
    ensures size { result ≡ length (row_encoding row.now) }
    ensures bytes { take result out.new ≡ row_encoding row.now }
    ensures rest { drop result out.new ≡ drop result out.old }
{
    let mut frame = [0; 280];
    let size = encode(&row.frame, &mut frame);
    let at = put(out, 0, &row.micros.to_be_bytes());
    put(out, at, &frame[..size])
}

/// The bytes after a time.
#[inline(always)]
pub(crate) fn behind_time(bytes: &[u8]) -> &[u8]
    ensures { result.now ≡ drop 8 bytes.now }
{
    &bytes[bytes.len().min(TIME_BYTES)..]
}

// The time at the start of some bytes.
fn time_at(bytes: &[u8]) -> u64
    requires { 8 ≤ length bytes.now }
    ensures { result ≡ micros_at bytes.now }
{
    let mut time = [0; 8];
    time.copy_from_slice(&bytes[..TIME_BYTES]);
    u64::from_be_bytes(time)
}

/// The row at the start of some bytes, if there is one.
pub fn row_at(bytes: &[u8]) -> Row
    requires long { 8 ≤ length bytes.now }
    requires frame { frame_size_at (is_old_at true (drop 8 bytes.now)) (drop 8 bytes.now) ≤ length (drop 8 bytes.now) }
    ensures { result ≡ first_row bytes.now }
{
    Row {
        micros: time_at(bytes),
        frame: frame_at(true, behind_time(bytes)),
    }
}
