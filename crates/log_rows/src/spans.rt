// What is at the start of some bytes of a log.
ghost use Rattle.std.specs.Prelude.{◌≡◌, ◌<◌, ◌≤◌, ◌++◌, ℕ, List, length, take, drop, true};
ghost use Rattle.mav_frame.specs.Looks.{frame_size_at, is_old_at};
ghost use Rattle.log_rows.specs.LogParse.{LogEvent};
ghost use Rattle.log_rows.specs.Progress.{LogProgress, IsWholeLog};
ghost use Rattle.log_rows.specs.Rows.{row_encoding, first_row};
ghost use Rattle.log_rows.specs.Spans.{log_span, span_events, span_size, held_behind, short_span, IfRow, IfSome};
ghost use Rattle.log_rows.specs.Spans.{IfNeed};

use crate::rows::{TIME_BYTES, behind_time};
use mav_frame::{CrcExtras, FrameCheck, Why, check_frame};

/// A row and its length in bytes, a byte that is in none and why, or nothing before more bytes come.
#[derive(Clone, Copy)]
pub enum RowSpan {
    Row(usize),
    Skipped(Why),
    Need,
}

/// What is at the start of the bytes of a log that are in no row yet; `ended` says that no more come.
#[inline]
pub fn row_span<T: CrcExtras>(extras: &T, ended: bool, bytes: &[u8]) -> RowSpan
    ensures exact { result ≡ log_span (record { extras = T.pairs extras.now; bytes = bytes.now; ended = ended }) }
    ensures within { span_size result ≤ length bytes.now }
    ensures some { IfSome result (0 < span_size result) }
    // The row is there, and these are its bytes.
    ensures row { IfRow result (λ size. (8 ≤ length bytes.now)
        × (size ≡ length (row_encoding (first_row bytes.now)))
        × (take size bytes.now ≡ row_encoding (first_row bytes.now))
        × (frame_size_at (is_old_at true (drop 8 bytes.now)) (drop 8 bytes.now) ≤ length (drop 8 bytes.now))) }
    // The events given and that at the start are a prefix of the parse.
    ensures progress { (table : List (ℕ × ℕ)) (taken : List ℕ) (given : List LogEvent)
        → LogProgress table taken given (record { extras = T.pairs extras.now; bytes = bytes.now; ended = ended })
        → LogProgress table taken (given ++ span_events bytes.now result)
        (held_behind (record { extras = T.pairs extras.now; bytes = bytes.now; ended = ended }) result) }
    // At Need all of it was given.
    ensures whole { (table : List (ℕ × ℕ)) (taken : List ℕ) (given : List LogEvent)
        → LogProgress table taken given (record { extras = T.pairs extras.now; bytes = bytes.now; ended = ended })
        → IfNeed result (IsWholeLog table taken given
        (record { extras = T.pairs extras.now; bytes = bytes.now; ended = ended })) }
    // And there is room for more.
    ensures room { IfNeed result (length bytes.now < 288) }
{
    span(extras, ended, bytes)
}

#[inline(always)]
fn span<T: CrcExtras>(extras: &T, ended: bool, bytes: &[u8]) -> RowSpan
    ensures { result ≡ log_span (record { extras = T.pairs extras.now; bytes = bytes.now; ended = ended }) }
{
    match check_frame(extras, true, behind_time(bytes)) {
        FrameCheck::Whole(size) => RowSpan::Row(size + TIME_BYTES),
        FrameCheck::NotHere(why) => RowSpan::Skipped(why),
        FrameCheck::More(_) => lacking(ended, bytes),
    }
}

// What it is where an incomplete row comes first, or nothing.
#[inline(always)]
fn lacking(ended: bool, bytes: &[u8]) -> RowSpan
    ensures { result ≡ short_span ended bytes.now }
{
    if ended && !bytes.is_empty() {
        RowSpan::Skipped(Why::Short)
    } else {
        RowSpan::Need
    }
}
