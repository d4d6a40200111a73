// The verdict of a verifier.

/// The verdict on a frame: admitted, or the first reason against it (MAVLink guide, Message Signing: Accepting Signed
/// Packets). Only an admitted frame may change anything.
#[derive(Clone, Copy, PartialEq, Eq)]
pub enum Admit {
    Admitted,
    /// It has no signature block.
    Unsigned,
    /// The signature isn't that of the key.
    BadSignature,
    /// Its timestamp isn't greater than the persisted timestamp low bound, the floor, that the verifier was started
    /// with.
    BelowFloor { floor: u64 },
    /// Its timestamp isn't greater than the last admitted one of its stream.
    NotLater { last: u64 },
    /// It is more than a minute older than the greatest timestamp that was admitted or sent.
    TooOld { local: u64 },
    /// Its stream is new, and as many streams are kept as can be.
    TooManyStreams,
}

/// No timestamp of 6 bytes is left to send.
#[derive(Clone, Copy)]
pub struct StampsSpent;
