// A frame, and the checksum that seals it.
ghost use Rattle.std.specs.Prelude.{◌≡◌, ◌^◌, ◌<◌, None, length, take, true};
ghost use Rattle.mav_frame.specs.Packet.{Packet, SignatureBlock};
ghost use Rattle.mav_frame.specs.Padding.{IsPadded, padded, unpadded};

use mav_names::Name;
use std::marker::Model;

/// The signature block after a frame: link id, timestamp in units of 10 microseconds since 1 January 2015, and the
/// first six bytes of the signature (MAVLink guide, Message Signing: Signature).
#[derive(Clone, Copy)]
pub struct Block {
    pub link: u8,
    pub stamp: u64,
    pub sig: [u8; 6],
}

impl Model for Block {
    ghost Value = { SignatureBlock };

    ghost view = { λ b. record { link = b.link; stamp = b.stamp; sig = b.sig } };

    ghost invariant = { λ b. b.stamp < 2 ^ 48 };

    ghost inverse = { λ s. record { link = s.link; stamp = s.stamp; sig = s.sig } };
}

/// A frame, which contracts see as a packet whose payload has `len` bytes. The bytes of `payload` past `len` are zero
/// (MAVLink guide, MAVLink 2 Packet Format). `old` says that it is a frame of MAVLink 1, which has an id below 256, no
/// compatibility flags and no signature block (MAVLink guide, MAVLink 1 Packet Format).
#[derive(Clone, Copy)]
pub struct Frame {
    pub old: bool,
    pub compat: u8,
    pub seq: u8,
    pub from: Name,
    pub id: u32,
    pub len: u8,
    pub payload: [u8; 255],
    pub check: u16,
    pub block: Option<Block>,
}

impl Model for Frame {
    ghost Value = { Packet };

    ghost view = { λ f. record {
      old = f.old;
      compat = f.compat;
      seq = f.seq;
      from = f.from;
      id = f.id;
      payload = take f.len f.payload;
      check = f.check;
      block = f.block;
    } };

    ghost invariant = { λ f. (f.id < 2 ^ 24) × IsPadded f.len f.payload
        × (f.old ≡ true → (f.id < 256) × (f.compat ≡ 0) × (f.block ≡ None)) };

    ghost inverse = { λ p. record {
      old = p.old;
      compat = p.compat;
      seq = p.seq;
      from = p.from;
      id = p.id;
      len = length p.payload;
      payload = padded p.payload;
      check = p.check;
      block = p.block;
    } };

    ghost inverse_ok = { λ a h. unpadded a.len a.payload h.1
        (λ n bytes. record {
          old = a.old;
          compat = a.compat;
          seq = a.seq;
          from = a.from;
          id = a.id;
          len = n;
          payload = bytes;
          check = a.check;
          block = a.block;
        }) };
}
