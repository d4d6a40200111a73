// What can be at the start of some bytes.
use crate::Frame;

/// Why no frame begins at a byte, numbered from 1 to 5. `Short` is the reason of an incomplete frame at the end of the
/// input, which `look` never gives.
#[derive(Clone, Copy)]
pub enum Why {
    NotStx = 1,
    UnknownFlag = 2,
    UnknownId = 3,
    BadCheck = 4,
    Short = 5,
}

/// A frame and its length in bytes, no frame, or an incomplete frame and how many bytes it lacks as far as that is
/// known.
#[derive(Clone, Copy)]
pub enum Look {
    Frame(Frame, usize),
    NotHere(Why),
    More(usize),
}

/// The same with the length of the frame only.
#[derive(Clone, Copy)]
pub enum FrameCheck {
    Whole(usize),
    NotHere(Why),
    More(usize),
}
