// Frames in one list of bytes.
ghost use Rattle.std.specs.Prelude.{◌≡◌, ◌≤◌, length, slice_range, OnErr, IfOk};
ghost use Rattle.mav_router.specs.Spans.{Appends, Holds, packet_of};

use crate::NoMemory;
use mav_frame::RawFrame;

/// Where the bytes of a frame are, from `start` up to `end`.
#[derive(Clone, Copy)]
pub(crate) struct Span {
    pub(crate) start: usize,
    pub(crate) end: usize,
}

/// The bytes in a span.
pub(crate) fn bytes_in(bytes: &[u8], span: Span) -> &[u8]
    requires order { span.start ≤ span.end }
    requires within { span.end ≤ length bytes.now }
    ensures { result.now ≡ slice_range bytes.now span.start span.end }
{
    &bytes[span.start..span.end]
}

/// The frame in a span.
pub(crate) fn frame_in(bytes: &[u8], span: Span) -> RawFrame<'_>
    requires { Holds bytes.now span }
    ensures { result ≡ packet_of bytes.now span }
{
    RawFrame::new(bytes_in(bytes, span))
}

/// Appends the bytes of a frame, and returns their span.
pub(crate) fn append(bytes: &mut Vec<u8>, frame: &RawFrame<'_>) -> Result<Span, NoMemory>
    ensures appends { IfOk result (λ span. Appends bytes.old.items bytes.new.items span frame.now) }
    ensures kept { OnErr result (bytes.new.items ≡ bytes.old.items) }
{
    let start = bytes.len();
    bytes.extend_from_slice(frame.bytes())?;
    Ok(Span {
        start,
        end: bytes.len(),
    })
}
