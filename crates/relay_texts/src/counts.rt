// What is counted at a port.

/// What came and went at a port since the start, and how many of its links are open now.
#[derive(Clone, Copy)]
pub struct PortCounts {
    /// The links that are open.
    pub links: u64,
    /// The bytes that were read.
    pub read: u64,
    /// The bytes of them that were skipped.
    pub skipped: u64,
    /// The frames that were admitted.
    pub admitted: u64,
    /// The frames that were refused.
    pub refused: u64,
    /// The bytes that were written.
    pub written: u64,
    /// The frames that were dropped because too much waited.
    pub dropped: u64,
}
