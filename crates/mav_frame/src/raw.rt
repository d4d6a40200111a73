// A frame as the bytes that encode it.
ghost use Rattle.std.specs.Prelude.{◌≡◌, ◌≤◌, ◌<◌, ◌^◌, ◌∷◌, ◌++◌, length, is_some, All, IfSome, IsSome, Some};
ghost use Rattle.mav_frame.specs.Encoding.{encoding, unsealed};
ghost use Rattle.mav_frame.specs.Numbers.{little_endian};
ghost use Rattle.mav_frame.specs.Packet.{FitsBlock, FitsFrame};
ghost use Rattle.mav_frame.specs.Looks.{is_old_at, packet_at};
ghost use Rattle.mav_frame.specs.Raw.{IsFrame, StartsFrame, packet_in, through_checksum};

use crate::checking::{
    CHECK_BYTES, block_of, frame_at, header_bytes, id_in, is_old_frame, offset_in,
};
use crate::{Block, Frame};
use mav_names::Name;
use std::marker::Model;

// The bytes of a signature, the last of a signed frame.
pub(crate) const SIGNATURE_BYTES: usize = 6;

/// A frame as the bytes that encode it, which contracts see as its packet. Its parts are read where they stand
/// (MAVLink guide, MAVLink 2 Packet Format and MAVLink 1 Packet Format).
#[derive(Drop)]
pub struct RawFrame<'a> {
    bytes: &'a [u8],
}

impl<'a> Model for RawFrame<'a> {
    ghost use Rattle.mav_frame.specs.Packet.{Packet};
    ghost use Rattle.mav_frame.specs.Raw.{IsFrame, packet_in};

    ghost Value = { Packet };

    ghost view = { λ f. packet_in f.bytes.now };

    ghost invariant = { λ f. IsFrame f.bytes.now };
}

fn are_bytes(bytes: &[u8])
    ensures { All (λ byte. byte < 256) bytes.now }
{
    let _ = bytes;
}

// A signature block's parts are in their ranges.
fn block_fits(block: &Block)
    ensures { FitsBlock block.now }
{
    let _link = block.link;
    are_bytes(&block.sig);
}

fn any_block_fits(block: &Option<Block>)
    ensures { IfSome block.now FitsBlock }
{
    if let Some(block) = block {
        block_fits(block);
    }
}

/// A frame's parts are.
pub(crate) fn fits(frame: &Frame)
    ensures { FitsFrame frame.now }
{
    let _compat = frame.compat;
    let _seq = frame.seq;
    let _sys = frame.from.sys;
    let _comp = frame.from.comp;
    let _check = frame.check;
    are_bytes(frame.payload_bytes());
    any_block_fits(&frame.block);
}

/// So are those of a signed frame of MAVLink 2.
pub(crate) fn signed_fits(seq: u8, from: Name, id: u32, payload: &[u8], check: u16, block: &Block)
    requires id { id < 2 ^ 24 }
    requires payload { length payload.now < 256 }
    ensures { FitsFrame (record (unsealed seq from id payload.now (Some block.now)) { check = check }) }
{
    let _seq = seq;
    let _sys = from.sys;
    let _comp = from.comp;
    let _id = id;
    let _check = check;
    are_bytes(payload);
    block_fits(block);
}

impl<'a> RawFrame<'a> {
    /// The frame of that length at the start of the bytes, which [`check_frame`](crate::check_frame) found there.
    pub fn at(old: bool, bytes: &'a [u8], size: usize) -> RawFrame<'a>
        requires { StartsFrame old bytes.now size }
        ensures { result ≡ packet_at (is_old_at old bytes.now) bytes.now }
    {
        let _ = old;
        RawFrame {
            bytes: &bytes[..size],
        }
    }

    /// The frame that all of the bytes encode.
    pub fn new(bytes: &'a [u8]) -> RawFrame<'a>
        requires { IsFrame bytes.now }
        ensures { result ≡ packet_in bytes.now }
    {
        RawFrame { bytes }
    }

    /// The same frame, as the bytes that encode it.
    pub fn of(frame: &Frame, bytes: &'a [u8]) -> RawFrame<'a>
        requires { bytes.now ≡ encoding frame.now }
        ensures { result ≡ frame.now }
    {
        fits(frame);
        RawFrame { bytes }
    }

    /// The bytes, at most 280.
    pub fn bytes(&self) -> &'a [u8]
        ensures bytes { result.now ≡ encoding self.now }
        ensures short { length result.now ≤ 280 }
        // They are read as the same frame.
        ensures frame { IsFrame result.now }
        ensures again { packet_in result.now ≡ self.now }
    {
        self.bytes
    }

    /// What is signed after the key: the bytes from STX through the timestamp.
    pub fn signed_bytes(&self) -> &'a [u8]
        requires { IsSome self.now.block }
        ensures { IfSome self.now.block (λ block. result.now ≡ through_checksum self.now ++ block.link
            ∷ little_endian 6 block.stamp) }
    {
        &self.bytes[..self.bytes.len() - SIGNATURE_BYTES]
    }

    /// The six bytes of its signature.
    pub fn signature(&self) -> &'a [u8]
        requires { IsSome self.now.block }
        ensures { IfSome self.now.block (λ block. result.now ≡ block.sig) }
    {
        &self.bytes[self.bytes.len() - SIGNATURE_BYTES..]
    }

    /// Whether it is a frame of MAVLink 1.
    pub fn is_old(&self) -> bool
        ensures { result ≡ self.now.old }
    {
        is_old_frame(true, self.bytes)
    }

    pub fn from(&self) -> Name
        ensures { result ≡ self.now.from }
    {
        if self.is_old() {
            Name {
                sys: self.bytes[3],
                comp: self.bytes[4],
            }
        } else {
            Name {
                sys: self.bytes[5],
                comp: self.bytes[6],
            }
        }
    }

    /// The message id.
    pub fn id(&self) -> u32
        ensures { result ≡ self.now.id }
    {
        id_in(self.is_old(), self.bytes)
    }

    /// The payload, at most 255 bytes.
    pub fn payload(&self) -> &'a [u8]
        ensures { result.now ≡ self.now.payload }
    {
        let old = self.is_old();
        &self.bytes[header_bytes(old)..offset_in(old, self.bytes)]
    }

    /// Whether it has a signature block.
    pub fn has_block(&self) -> bool
        ensures { result ≡ is_some self.now.block }
    {
        !self.is_old() && self.bytes[2] != 0
    }

    pub fn block(&self) -> Option<Block>
        ensures { result ≡ self.now.block }
    {
        if is_old_frame(true, self.bytes) || self.bytes[2] == 0 {
            return None;
        }
        let at = offset_in(false, self.bytes) + CHECK_BYTES;
        Some(block_of(at, self.bytes))
    }

    /// The same frame with its parts in fields.
    pub fn to_frame(&self) -> Frame
        ensures { result ≡ self.now }
    {
        frame_at(true, self.bytes)
    }
}
