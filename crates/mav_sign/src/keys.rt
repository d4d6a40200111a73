// The secret key of a system's links.
ghost use Rattle.std.specs.Prelude.{◌≡◌, IsTrue, ◌↔◌};

use std::marker::Model;

/// A secret key of 32 bytes (MAVLink guide, Message Signing: Secret Key Management). Contracts see the list of them.
#[derive(Clone, Copy)]
pub struct Key {
    bytes: [u8; 32],
}

impl Model for Key {
    ghost use Rattle.std.specs.Prelude.{ℕ, List};

    ghost Value = { List ℕ };

    ghost view = { λ k. k.bytes };

    ghost inverse = { λ bytes. record { bytes = bytes } };
}

impl Key {
    pub fn new(bytes: [u8; 32]) -> Key
        ensures { result ≡ bytes }
    {
        Key { bytes }
    }

    pub(crate) fn bytes(&self) -> &[u8]
        ensures { result.now ≡ self.now }
    {
        &self.bytes
    }

    pub(crate) fn is_same(&self, other: &Key) -> bool
        ensures { IsTrue result ↔ self.now ≡ other.now }
    {
        self.bytes() == other.bytes()
    }
}
