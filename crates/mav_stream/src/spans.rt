// What can come next.
ghost use Rattle.std.specs.Prelude.{◌≡◌};
ghost use Rattle.mav_stream.specs.Spans.{span_size};

use mav_frame::Why;

/// A frame and its length in bytes, how many bytes are skipped one by one and why (at most 1,024 at once), or nothing
/// before more bytes come.
#[derive(Clone, Copy)]
pub enum NextSpan {
    Frame(usize),
    Skipped(Why, usize),
    Need,
}

impl NextSpan {
    /// How many bytes it takes.
    #[inline]
    pub fn size(self) -> usize
        ensures { result ≡ span_size self }
    {
        match self {
            NextSpan::Frame(size) => size,
            NextSpan::Skipped(_, count) => count,
            NextSpan::Need => 0,
        }
    }
}
