// What happens at a relay beside its frames.

use relay_hub::Why;

/// What happened beside the frames that came in.
#[derive(Clone, Copy)]
pub enum Note {
    /// A link opened, with its number, at a port.
    Opened {
        number: u64,
        port: u8,
    },
    /// A link closed, of which so many frames were dropped in all.
    Closed {
        number: u64,
        port: u8,
        why: Why,
        dropped: u64,
    },
    /// A port had a link too many.
    Refused {
        port: u8,
    },
    /// A port couldn't be opened.
    Waits {
        port: u8,
    },
    /// An open link gave so many bytes.
    Gave {
        number: u64,
        port: u8,
        count: usize,
    },
    /// An open link took so many bytes.
    Took {
        number: u64,
        port: u8,
        count: usize,
    },
    /// Somebody who has no link sent so many bytes to a port.
    Asked {
        port: u8,
        count: usize,
    },
}
