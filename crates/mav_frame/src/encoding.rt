// From a frame to its bytes.
ghost use Rattle.std.specs.Prelude.{◌≡◌, ℕ, ◌+◌, ◌<◌, ◌^◌, ◌≤◌, ◌++◌, ◌∷◌, [], None, false, true, length, take, drop};
ghost use Rattle.x25_check.specs.Check.{check};
ghost use Rattle.mav_frame.specs.Encoding.{block_bytes, encoding, header as header_bytes, header_of, sealed, stx_of};
ghost use Rattle.mav_frame.specs.Looks.{header_size};
ghost use Rattle.mav_frame.specs.Numbers.{little_endian};

use crate::checking::payload_of;
use crate::numbers::{bytes_2, bytes_3, bytes_6};
use crate::{Block, Frame};
use mav_names::Name;
use x25_check::X25;

/// The first byte of a frame of MAVLink 2.
pub const STX: u8 = 0xFD;

/// The first byte of a frame of MAVLink 1.
pub const OLD_STX: u8 = 0xFE;

impl Frame {
    /// A frame of MAVLink 2 whose checksum is still 0.
    pub fn new(
        compat: u8,
        seq: u8,
        from: Name,
        id: u32,
        payload: &[u8],
        block: Option<Block>,
    ) -> Frame
        requires id { id < 2 ^ 24 }
        requires payload { length payload.now < 256 }
        ensures { result ≡ record {
          old = false;
          compat = compat;
          seq = seq;
          from = from;
          id = id;
          payload = payload.now;
          check = 0;
          block = block;
        } }
    {
        Frame {
            old: false,
            compat,
            seq,
            from,
            id,
            len: payload.len() as u8,
            payload: payload_of(payload),
            check: 0,
            block,
        }
    }

    /// Sets the checksum, if the message has that CRC_EXTRA.
    pub fn seal(&mut self, extra: u8)
        ensures { self.exit.now ≡ sealed extra self.entry.now }
    {
        let mut check = X25::new();
        if self.old {
            check.push_all(&self.old_header());
        } else {
            check.push_all(&self.new_header());
        }
        check.push_all(self.payload_bytes());
        check.push(extra);
        self.check = check.value();
    }

    /// The payload's bytes.
    pub fn payload_bytes(&self) -> &[u8]
        ensures bytes { result.now ≡ self.now.payload }
        ensures short { length result.now ≤ 255 }
    {
        &self.payload[..usize::from(self.len)]
    }

    /// How many bytes encode the frame without its signature block: the payload's, and 8 of MAVLink 1 or 12 of
    /// MAVLink 2.
    pub fn unsigned_size(&self) -> usize
        ensures exact { result ≡ header_size self.now.old + length self.now.payload + 2 }
        ensures short { result ≤ 267 }
    {
        let others = if self.old { 8 } else { 12 };
        others + usize::from(self.len)
    }

    /// How many bytes encode the frame: 13 more with a signature block.
    pub fn size(&self) -> usize
        ensures { result ≡ length (encoding self.now) }
    {
        match &self.block {
            None => self.unsigned_size(),
            Some(block) => self.unsigned_size() + 7 + block.sig.as_slice().len(),
        }
    }
}

impl Frame {
    // The header of MAVLink 1 after STX.
    fn old_header(&self) -> [u8; 5]
        ensures { result ≡ header_of true self.now }
    {
        [
            self.len,
            self.seq,
            self.from.sys,
            self.from.comp,
            (self.id % 256) as u8,
        ]
    }

    // The header of MAVLink 2 after STX.
    fn new_header(&self) -> [u8; 9]
        ensures { result ≡ header_of false self.now }
    {
        let flags = if self.block.is_some() { 1 } else { 0 };
        new_header(self.len, flags, self.compat, self.seq, self.from, self.id)
    }
}

/// The header of MAVLink 2 after STX: the payload's length, the incompatibility and the compatibility flags, the
/// sequence number, the sender and the message id.
pub(crate) fn new_header(len: u8, flags: u8, compat: u8, seq: u8, from: Name, id: u32) -> [u8; 9]
    ensures { result ≡ len ∷ flags ∷ compat ∷ seq ∷ from.sys ∷ from.comp ∷ little_endian 3 id }
{
    let [low, middle, high] = bytes_3(id);
    [
        len, flags, compat, seq, from.sys, from.comp, low, middle, high,
    ]
}

/// The checksum over some bytes and the CRC_EXTRA of a message.
#[inline(always)]
pub(crate) fn checksum(bytes: &[u8], extra: u8) -> u16
    ensures { result ≡ check (bytes.now ++ extra ∷ []) }
{
    let mut sum = X25::new();
    sum.push_all(bytes);
    sum.push(extra);
    sum.value()
}

/// Writes the bytes at an offset, and returns where they end.
pub fn put<const SIZE: usize>(out: &mut [u8; SIZE], at: usize, bytes: &[u8]) -> usize
    requires { at + length bytes.now ≤ SIZE }
    ensures end { result ≡ at + length bytes.now }
    ensures prefix { take result out.new ≡ take at out.old ++ bytes.now }
    ensures rest { (k : ℕ) → result ≤ k → drop k out.new ≡ drop k out.old }
{
    let end = at + bytes.len();
    let whole = &mut out[..];
    whole[at..end].copy_from_slice(bytes);
    end
}

// Writes the header, STX included, and returns its length.
fn put_header(frame: &Frame, out: &mut [u8; 280]) -> usize
    ensures end { result ≡ header_size frame.now.old }
    ensures short { result ≤ 10 }
    ensures prefix { take result out.new ≡ stx_of frame.now.old ∷ header_bytes frame.now }
    ensures rest { (k : ℕ) → result ≤ k → drop k out.new ≡ drop k out.old }
{
    if frame.old {
        put(out, 0, &[OLD_STX]);
        put(out, 1, &frame.old_header())
    } else {
        put(out, 0, &[STX]);
        put(out, 1, &frame.new_header())
    }
}

/// Writes the signature block at an offset, if there is one, and returns where it ends.
pub(crate) fn put_block(block: &Option<Block>, out: &mut [u8; 280], at: usize) -> usize
    requires { at + 13 ≤ 280 }
    ensures end { result ≡ at + length (block_bytes block.now) }
    ensures prefix { take result out.new ≡ take at out.old ++ block_bytes block.now }
    ensures rest { (k : ℕ) → result ≤ k → drop k out.new ≡ drop k out.old }
{
    match block {
        None => at,
        Some(block) => {
            let at = put(out, at, &[block.link]);
            let at = put(out, at, &bytes_6(block.stamp));
            put(out, at, &block.sig)
        }
    }
}

/// Writes the frame's bytes to the start of `out`, and returns how many these are. The rest of `out` stays.
pub fn encode(frame: &Frame, out: &mut [u8; 280]) -> usize
    ensures size { result ≡ length (encoding frame.now) }
    ensures bytes { take result out.new ≡ encoding frame.now }
    ensures rest { drop result out.new ≡ drop result out.old }
{
    let at = put_header(frame, out);
    let at = put(out, at, frame.payload_bytes());
    let at = put(out, at, &bytes_2(frame.check));
    put_block(&frame.block, out, at)
}
