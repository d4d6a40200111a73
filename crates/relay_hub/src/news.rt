// What happens at the ports of a relay.

/// Why a link closed.
#[derive(Clone, Copy)]
pub enum Why {
    /// Its other end closed it.
    Ended,
    /// A read or a write of it failed.
    Fault,
    /// Its peer was silent for too long.
    Silent,
}

/// What happened at a port, which are numbered from 1, or to a link that was open.
#[derive(Clone, Copy)]
pub enum HubNews {
    /// A link opened at this port. It is the last of those that are open.
    Opened(u8),
    /// A link at this port was one too many, and was closed at once.
    Refused(u8),
    /// The open link with this index closed. Each later link's index is one less.
    Closed(usize, Why),
    /// This port couldn't be opened. It is tried again, and this is told once until it is open.
    Waits(u8),
}

/// A datagram of somebody who has no link: the port at which it came, and how many bytes it has.
#[derive(Clone, Copy)]
pub struct Stranger {
    pub port: u8,
    pub count: usize,
}
