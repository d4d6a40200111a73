// The events of a parse.
use crate::{Frame, Why};

/// A frame of a stream, or a skipped byte and why no frame begins there.
#[derive(Clone, Copy)]
pub enum Event {
    Frame(Frame),
    Skipped(u8, Why),
}
