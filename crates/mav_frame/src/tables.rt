// Tables of the CRC_EXTRA bytes of messages.
ghost use Rattle.std.specs.Prelude.{◌≡◌, ℕ, List};
ghost use Rattle.x25_check.specs.Extras.{extra_of};

use x25_check::Extras;

/// A table of the CRC_EXTRA byte of each known message id (MAVLink guide, Packet Serialization: CRC_EXTRA
/// calculation).
pub trait CrcExtras {
    /// The pairs of an id and its byte.
    ghost pairs: { Self → List (ℕ × ℕ) };

    /// The CRC_EXTRA of a message id.
    fn extra(&self, id: u32) -> Option<u8>
        ensures { result ≡ extra_of id (pairs self.now) };
}

impl CrcExtras for Extras {
    ghost pairs = { λ x. x };

    fn extra(&self, id: u32) -> Option<u8> {
        self.get(id)
    }
}
