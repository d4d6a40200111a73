// A frame as bytes of its own.
ghost use Rattle.std.specs.Prelude.{◌≡◌, ◌<◌, ◌^◌, [], length, IfSome, IsSome, Some, None};
ghost use Rattle.mav_frame.specs.Encoding.{sealed, unsealed};

use crate::encoding::{checksum, new_header, put, put_block};
use crate::numbers::bytes_2;
use crate::raw::{SIGNATURE_BYTES, fits, signed_fits};
use crate::{Block, Frame, RawFrame, STX, encode};
use mav_names::Name;
use std::marker::Model;

// A frame of MAVLink 2 with 255 bytes of payload and a signature block.
const MOST_BYTES: usize = 280;

/// A frame as the bytes that encode it, which it owns, and which contracts see as its packet: what is sent, kept and
/// printed as it is.
#[derive(Drop)]
pub struct FrameBytes {
    bytes: [u8; MOST_BYTES],
    size: usize,
}

impl Model for FrameBytes {
    ghost use Rattle.std.specs.Prelude.{◌≤◌, take};
    ghost use Rattle.mav_frame.specs.Packet.{Packet};
    ghost use Rattle.mav_frame.specs.Raw.{IsFrame, packet_in};

    ghost Value = { Packet };

    ghost view = { λ f. packet_in (take f.size f.bytes) };

    ghost invariant = { λ f. (f.size ≤ 280) × IsFrame (take f.size f.bytes) };
}

impl FrameBytes {
    /// The same frame.
    pub fn of(frame: &Frame) -> FrameBytes
        ensures { result ≡ frame.now }
    {
        fits(frame);
        let mut bytes = [0; MOST_BYTES];
        let size = encode(frame, &mut bytes);
        FrameBytes { bytes, size }
    }

    /// The frame of MAVLink 2 without payload and signature block whose numbers and checksum are 0, which `seal`
    /// writes another over.
    #[inline]
    pub fn new() -> FrameBytes
        ensures { result ≡ unsealed 0 (record { sys = 0; comp = 0 }) 0 [] None }
    {
        let mut bytes = [0; MOST_BYTES];
        let size = put(&mut bytes, 0, &[STX, 0, 0, 0, 0, 0, 0, 0, 0, 0, 0, 0]);
        FrameBytes { bytes, size }
    }

    /// Makes it a frame of MAVLink 2 with a signature block and without compatibility flags, whose checksum is that of
    /// a message with that CRC_EXTRA.
    pub fn seal(&mut self, seq: u8, from: Name, id: u32, payload: &[u8], extra: u8, block: Block)
        requires id { id < 2 ^ 24 }
        requires payload { length payload.now < 256 }
        ensures { self.new ≡ sealed extra (unsealed seq from id payload.now (Some block)) }
    {
        let header = new_header(payload.len() as u8, 1, 0, seq, from, id);
        let at = put(&mut self.bytes, 0, &[STX]);
        let at = put(&mut self.bytes, at, &header);
        let at = put(&mut self.bytes, at, payload);
        let check = checksum(&self.bytes[1..at], extra);
        signed_fits(seq, from, id, payload, check, &block);
        let at = put(&mut self.bytes, at, &bytes_2(check));
        let size = put_block(&Some(block), &mut self.bytes, at);
        self.size = size;
    }

    /// The frame, whose bytes these are.
    pub fn raw(&self) -> RawFrame<'_>
        ensures { result ≡ self.now }
    {
        RawFrame::new(&self.bytes[..self.size])
    }

    /// Replaces the six bytes of its signature.
    pub fn set_signature(&mut self, signature: &[u8; 6])
        requires { IsSome self.old.block }
        ensures { IfSome self.old.block (λ block. self.new
            ≡ record self.old { block = Some record block { sig = signature.now } }) }
    {
        put(&mut self.bytes, self.size - SIGNATURE_BYTES, signature);
    }
}
