// Frames of which it is known that they verify.
ghost use Rattle.std.specs.Prelude.{◌≡◌, ◌<◌, ◌^◌, [], length, IfSome, IsSome, IsTrue, Some, None};
ghost use Rattle.mav_frame.specs.Encoding.{sealed, unsealed};
ghost use Rattle.mav_sign.specs.Signing.{signature_of, Verifies};

use crate::{Key, sign_bytes};
use mav_frame::{Block, FrameBytes, RawFrame};
use mav_names::Name;
use std::marker::Model;

/// A frame as the bytes that encode it, and the key under which it was signed, if it was: whoever has that key knows
/// without a digest that the frame verifies. Contracts see its packet.
#[derive(Drop)]
pub struct SignedFrame {
    frame: FrameBytes,
    key: Option<Key>,
}

impl Model for SignedFrame {
    ghost use Rattle.std.specs.Prelude.{IfSome};
    ghost use Rattle.mav_frame.specs.Packet.{Packet};
    ghost use Rattle.mav_sign.specs.Signing.{Verifies};

    ghost Value = { Packet };

    ghost view = { λ f. f.frame };

    ghost invariant = { λ f. IfSome f.key (λ key. Verifies key f.frame f.frame.block) };
}

impl SignedFrame {
    /// The frame of `FrameBytes::new`, which isn't signed: `Endpoint::send_bytes` writes another over it.
    #[inline]
    pub fn new() -> SignedFrame
        ensures { result ≡ unsealed 0 (record { sys = 0; comp = 0 }) 0 [] None }
    {
        SignedFrame {
            frame: FrameBytes::new(),
            key: None,
        }
    }

    /// Makes it the frame of `FrameBytes::seal`, which is still to be signed.
    pub(crate) fn seal(
        &mut self,
        seq: u8,
        from: Name,
        id: u32,
        payload: &[u8],
        extra: u8,
        block: Block,
    )
        requires id { id < 2 ^ 24 }
        requires payload { length payload.now < 256 }
        ensures { self.new ≡ sealed extra (unsealed seq from id payload.now (Some block)) }
    {
        self.key = None;
        self.frame.seal(seq, from, id, payload, extra, block);
    }

    /// Signs it, by the link id and the timestamp of its signature block.
    pub(crate) fn sign(&mut self, key: &Key)
        requires { IsSome self.old.block }
        ensures { IfSome self.old.block (λ block. self.new
            ≡ record self.old {
              block = Some record block {
                sig = signature_of key.now self.old block.link
                    block.stamp;
              };
            }) }
    {
        sign_bytes(key, &mut self.frame);
        self.key = Some(*key);
    }

    /// The frame, whose bytes these are.
    pub fn raw(&self) -> RawFrame<'_>
        ensures { result ≡ self.now }
    {
        self.frame.raw()
    }

    /// Whether it was signed under this key. Any other frame may verify too.
    pub fn is_signed_under(&self, key: &Key) -> bool
        ensures { IsTrue result → Verifies key.now self.now self.now.block }
    {
        match &self.key {
            Some(known) => known.is_same(key),
            None => false,
        }
    }
}
