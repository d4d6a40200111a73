// What a client returns of a payload and of a tick.
use field_layout::Label;

/// What a payload makes of the open operation.
#[derive(Drop)]
pub enum FtpStep {
    /// The payload isn't the reply that is waited for.
    Quiet,
    /// The operation goes on with this request.
    Send([u8; 251]),
    /// The operation is done: the entries of a list, the bytes of a fetched file, or no byte.
    Done(Label),
    /// The operation ended by a NAK with this error code.
    Refused(u8),
}

/// What a tick makes of the open operation.
#[derive(Clone, Copy)]
pub enum FtpTick {
    /// None is open.
    Quiet,
    /// Its request is sent again.
    Again([u8; 251]),
    /// It ended, after so many ticks without a reply.
    NoAnswer(u8),
}
