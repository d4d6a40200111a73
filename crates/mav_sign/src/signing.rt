// Signatures of frames.
ghost use Rattle.std.specs.Prelude.{◌≡◌, ◌^◌, ◌<◌, ◌↔◌, ◌++◌, IsTrue, IfSome, IsSome, Some, take};
ghost use Rattle.sha2.specs.Sha256.{sha256};
ghost use Rattle.mav_sign.specs.Signing.{signature_of, Verifies, verified};

use crate::Key;
use mav_frame::{Block, Frame, FrameBytes, RawFrame, encode};
use sha2::{Digest, Sha256};

// The first six bytes of the digest of the key and some bytes.
fn signature_over(key: &Key, bytes: &[u8]) -> [u8; 6]
    ensures { result ≡ take 6 (sha256 (key.now ++ bytes.now)) }
{
    let mut hasher = Sha256::new();
    hasher.update(key.bytes());
    hasher.update(bytes);
    let digest = hasher.finalize();
    let mut first = [0; 6];
    first.copy_from_slice(&digest[..6]);
    first
}

// The signature of a frame, by the link id and the timestamp of its signature block.
fn signature(key: &Key, frame: &RawFrame<'_>) -> [u8; 6]
    requires { IsSome frame.now.block }
    ensures { IfSome frame.now.block (λ block. result ≡ signature_of key.now frame.now block.link block.stamp) }
{
    signature_over(key, frame.signed_bytes())
}

/// Signs a frame that has its checksum and a signature block, whose six bytes it sets.
pub fn sign_bytes(key: &Key, frame: &mut FrameBytes)
    requires { IsSome frame.old.block }
    ensures { IfSome frame.old.block (λ block. frame.new
        ≡ record frame.old {
          block = Some record block {
            sig = signature_of key.now frame.old block.link
                block.stamp;
          };
        }) }
{
    let sig = signature(key, &frame.raw());
    frame.set_signature(&sig);
}

// The same.
fn signature_in_fields(key: &Key, frame: &Frame) -> [u8; 6]
    requires { IsSome frame.now.block }
    ensures { IfSome frame.now.block (λ block. result ≡ signature_of key.now frame.now block.link block.stamp) }
{
    let mut bytes = [0; 280];
    let size = encode(frame, &mut bytes);
    signature(key, &RawFrame::of(frame, &bytes[..size]))
}

/// Whether the frame has a signature block whose six bytes are those of the key (MAVLink guide, Message Signing:
/// Signature).
pub fn verifies(key: &Key, frame: &Frame) -> bool
    ensures verifies { IsTrue result ↔ Verifies key.now frame.now frame.now.block }
    ensures test { result ≡ verified key.now frame.now frame.now.block }
{
    let mut bytes = [0; 280];
    let size = encode(frame, &mut bytes);
    verifies_raw(key, &RawFrame::of(frame, &bytes[..size]))
}

/// The same of a frame as the bytes that encode it.
pub fn verifies_raw(key: &Key, frame: &RawFrame<'_>) -> bool
    ensures verifies { IsTrue result ↔ Verifies key.now frame.now frame.now.block }
    ensures test { result ≡ verified key.now frame.now frame.now.block }
{
    frame.has_block() && frame.signature() == signature(key, frame).as_slice()
}

/// Signs a frame that has a signature block and its checksum: sets the link id, the timestamp in units of 10
/// microseconds since 1 January 2015, and the signature.
pub fn sign(key: &Key, frame: &mut Frame, link: u8, stamp: u64)
    requires stamp { stamp < 2 ^ 48 }
    requires block { IsSome frame.now.block }
    ensures signed { frame.exit.now ≡ record frame.entry.now {
      block = Some record { link = link; stamp = stamp; sig = signature_of key.now frame.entry.now link stamp };
    } }
    ensures verifies { Verifies key.now frame.exit.now frame.exit.now.block }
{
    let sig = [0; 6];
    frame.block = Some(Block { link, stamp, sig });
    let sig = signature_in_fields(key, frame);
    frame.block = Some(Block { link, stamp, sig });
}
