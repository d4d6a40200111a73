// Datagrams, of some of which it is known that their frame verifies.
ghost use Rattle.std.specs.Prelude.{◌≡◌, IsTrue};
ghost use Rattle.mav_sign.specs.Signing.{BytesVerify, Verifies};

use crate::Key;
use mav_frame::RawFrame;
use std::marker::Model;

/// The bytes of a datagram; and, if they are a frame that is known to verify, under which key. Contracts see the
/// bytes.
#[derive(Drop)]
pub struct Datagram<'a> {
    bytes: &'a [u8],
    key: Option<Key>,
}

impl<'a> Model for Datagram<'a> {
    ghost use Rattle.std.specs.Prelude.{ℕ, List, IfSome};
    ghost use Rattle.mav_sign.specs.Signing.{BytesVerify};

    ghost Value = { List ℕ };

    ghost view = { λ d. d.bytes.now };

    ghost invariant = { λ d. IfSome d.key (λ key. BytesVerify key d.bytes.now) };
}

impl<'a> Datagram<'a> {
    /// Bytes from anywhere: each of their frames is still to be verified.
    pub fn new(bytes: &'a [u8]) -> Datagram<'a>
        ensures { result ≡ bytes.now }
    {
        Datagram { bytes, key: None }
    }

    /// The bytes of one frame, which is known to verify under this key.
    pub fn signed(bytes: &'a [u8], key: Key) -> Datagram<'a>
        requires { BytesVerify key bytes.now }
        ensures { result ≡ bytes.now }
    {
        Datagram {
            bytes,
            key: Some(key),
        }
    }

    pub fn bytes(&self) -> &'a [u8]
        ensures { result.now ≡ self.now }
    {
        self.bytes
    }

    /// Whether the frame is all of the datagram, and known to verify under this key.
    pub(crate) fn is_signed(&self, frame: &RawFrame<'_>, key: &Key) -> bool
        ensures { IsTrue result → Verifies key.now frame.now frame.now.block }
    {
        match &self.key {
            Some(known) => known.is_same(key) && frame.bytes() == self.bytes,
            None => false,
        }
    }
}
