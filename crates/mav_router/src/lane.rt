// What a router keeps of a port.
use mav_stream::{MOST_HELD, PieceReader};

/// How many bytes one read takes at most.
pub(crate) const PIECE: usize = 4096;

/// How many bytes are looked at at most: those of a read, after those that the port's reader held.
pub(crate) const BUFFER: usize = MOST_HELD + PIECE;

/// Its reader, whether it ended or a call failed, and its counts: `turns` is of the reads that gave bytes or returned
/// Idle.
#[derive(Drop)]
pub(crate) struct Lane {
    pub(crate) scanner: PieceReader,
    pub(crate) ended: bool,
    pub(crate) failed: bool,
    pub(crate) turns: u64,
    pub(crate) read: u64,
    pub(crate) skipped: u64,
    pub(crate) written: u64,
}
