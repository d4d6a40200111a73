// What is at the start of some bytes.
ghost use Rattle.std.specs.Prelude.{◌≡◌, ◌+◌, ◌≤◌, ◌++◌, ℕ, List, length, take, drop, false, true};
ghost use Rattle.mav_frame.specs.Padding.{IsPadded};
ghost use Rattle.mav_frame.specs.Packet.{Packet, FitsFrame};
ghost use Rattle.mav_frame.specs.Encoding.{Encodes, IsSealed, encoding};
ghost use Rattle.mav_frame.specs.Looks.{IfFrame, IfWhole, block_at, check_offset, frame_size_at, header_size, id_at};
ghost use Rattle.mav_frame.specs.Looks.{is_old_at, look_by, look_header, look_known, look_of, packet_at};

use crate::encoding::{OLD_STX, STX, checksum};
use crate::looks::{FrameCheck, Look, Why};
use crate::numbers::{number_2, number_3, number_6};
use crate::tables::CrcExtras;
use crate::{Block, Frame};
use mav_names::Name;
use x25_check::Extras;

// The bytes of the headers, of a checksum and of a signature block.
const HEADER_BYTES: usize = 10;

const OLD_HEADER_BYTES: usize = 6;

pub(crate) const CHECK_BYTES: usize = 2;

const BLOCK_BYTES: usize = 13;

/// What the bytes begin with: the tests go from left to right, and none needs a byte after the one that decides it.
/// Frames of MAVLink 1 are read if `old` says so.
pub fn look(extras: &Extras, old: bool, bytes: &[u8]) -> Look
    // The result, in the order of the tests.
    ensures exact { result ≡ look_of extras.now old bytes.now }
    // What is found is encoded by the bytes at the start.
    ensures found { IfFrame result (λ packet size. (size ≤ length bytes.now)
        × Encodes extras.now old packet (take size bytes.now) × FitsFrame packet) }
    // What is encoded there is found, whatever follows.
    ensures only { (packet : Packet) (rest : List ℕ) → FitsFrame packet → IsSealed extras.now old packet
        → bytes.now ≡ encoding packet ++ rest → result ≡ Look.Frame packet (length (encoding packet)) }
{
    answer(extras, old, bytes)
}

fn answer(extras: &Extras, old: bool, bytes: &[u8]) -> Look
    ensures { result ≡ look_of extras.now old bytes.now }
{
    match checked(extras, old, bytes) {
        FrameCheck::Whole(size) => Look::Frame(frame_at(old, bytes), size),
        FrameCheck::NotHere(why) => Look::NotHere(why),
        FrameCheck::More(lacking) => Look::More(lacking),
    }
}

/// What the bytes begin with, without the frame.
#[inline]
pub fn check_frame<T: CrcExtras>(extras: &T, old: bool, bytes: &[u8]) -> FrameCheck
    ensures exact { look_by result (is_old_at old bytes.now) bytes.now ≡ look_of (T.pairs extras.now) old bytes.now }
    ensures whole { IfWhole result (λ size. frame_size_at (is_old_at old bytes.now) bytes.now ≤ length bytes.now) }
    // The bytes at the start encode a frame.
    ensures found { IfWhole result (λ size. (size ≤ length bytes.now)
        × Encodes (T.pairs extras.now) old (packet_at (is_old_at old bytes.now) bytes.now) (take size bytes.now)
        × FitsFrame (packet_at (is_old_at old bytes.now) bytes.now)) }
{
    checked(extras, old, bytes)
}

/// The frame at the start of the bytes, if there is one.
pub fn frame_at(old: bool, bytes: &[u8]) -> Frame
    requires { frame_size_at (is_old_at old bytes.now) bytes.now ≤ length bytes.now }
    ensures { result ≡ packet_at (is_old_at old bytes.now) bytes.now }
{
    if is_old_frame(old, bytes) {
        old_frame_of(bytes)
    } else {
        new_frame_of(bytes)
    }
}

// Whether a frame of MAVLink 1 begins here, if such are read.
#[inline(always)]
pub(crate) fn is_old_frame(old: bool, bytes: &[u8]) -> bool
    ensures { result ≡ is_old_at old bytes.now }
{
    old && !bytes.is_empty() && bytes[0] == OLD_STX
}

#[inline(always)]
fn checked<T: CrcExtras>(extras: &T, old: bool, bytes: &[u8]) -> FrameCheck
    ensures exact { look_by result (is_old_at old bytes.now) bytes.now ≡ look_of (T.pairs extras.now) old bytes.now }
    ensures whole { IfWhole result (λ size. frame_size_at (is_old_at old bytes.now) bytes.now ≤ length bytes.now) }
{
    if is_old_frame(old, bytes) {
        return check_header(extras, true, bytes);
    }
    let held = bytes.len();
    if held > 0 && bytes[0] != STX {
        return FrameCheck::NotHere(Why::NotStx);
    }
    if held < 3 {
        return FrameCheck::More(3 - held);
    }
    if bytes[2] > 1 {
        return FrameCheck::NotHere(Why::UnknownFlag);
    }
    check_header(extras, false, bytes)
}

// The bytes of a header.
#[inline(always)]
pub(crate) fn header_bytes(old: bool) -> usize
    ensures { result ≡ header_size old }
{
    if old { OLD_HEADER_BYTES } else { HEADER_BYTES }
}

// The message id of a header.
#[inline(always)]
pub(crate) fn id_in(old: bool, bytes: &[u8]) -> u32
    requires { header_size old ≤ length bytes.now }
    ensures { result ≡ id_at old bytes.now }
{
    if old {
        u32::from(bytes[5])
    } else {
        number_3(bytes, 7)
    }
}

// Where the checksum begins, after the header that comes first.
#[inline(always)]
pub(crate) fn offset_in(old: bool, bytes: &[u8]) -> usize
    requires { header_size old ≤ length bytes.now }
    ensures { result ≡ check_offset old bytes.now }
{
    header_bytes(old) + usize::from(bytes[1])
}

// The length of the frame whose header comes first.
#[inline(always)]
fn size_in(old: bool, bytes: &[u8]) -> usize
    requires { header_size old ≤ length bytes.now }
    ensures { result ≡ frame_size_at old bytes.now }
{
    let unsigned = offset_in(old, bytes) + CHECK_BYTES;
    if old || bytes[2] == 0 {
        unsigned
    } else {
        unsigned + BLOCK_BYTES
    }
}

// The same, if STX of this version and known flags come first.
#[inline(always)]
fn check_header<T: CrcExtras>(extras: &T, old: bool, bytes: &[u8]) -> FrameCheck
    ensures exact { look_by result old bytes.now ≡ look_header (T.pairs extras.now) old bytes.now }
    ensures whole { IfWhole result (λ size. frame_size_at old bytes.now ≤ length bytes.now) }
{
    let held = bytes.len();
    let header = header_bytes(old);
    if held < header {
        return FrameCheck::More(header - held);
    }
    match extras.extra(id_in(old, bytes)) {
        None => FrameCheck::NotHere(Why::UnknownId),
        Some(extra) => check_known(extra, old, bytes),
    }
}

// The same, if the CRC_EXTRA of the id is known.
#[inline(always)]
fn check_known(extra: u8, old: bool, bytes: &[u8]) -> FrameCheck
    requires { header_size old ≤ length bytes.now }
    ensures exact { look_by result old bytes.now ≡ look_known old extra bytes.now }
    ensures whole { IfWhole result (λ size. frame_size_at old bytes.now ≤ length bytes.now) }
{
    let held = bytes.len();
    let size = size_in(old, bytes);
    if held < size {
        return FrameCheck::More(size - held);
    }
    let offset = offset_in(old, bytes);
    if number_2(bytes, offset) == checksum(&bytes[1..offset], extra) {
        FrameCheck::Whole(size)
    } else {
        FrameCheck::NotHere(Why::BadCheck)
    }
}

// Writes the bytes at the start.
fn fill(payload: &mut [u8; 255], bytes: &[u8])
    requires { length bytes.now ≤ 255 }
    ensures { payload.new ≡ bytes.now ++ drop (length bytes.now) payload.old }
{
    payload[..bytes.len()].copy_from_slice(bytes);
}

// A payload and zeros after it.
pub(crate) fn payload_of(bytes: &[u8]) -> [u8; 255]
    requires { length bytes.now ≤ 255 }
    ensures front { take (length bytes.now) result ≡ bytes.now }
    ensures padded { IsPadded (length bytes.now) result }
{
    let mut payload = [0; 255];
    fill(&mut payload, bytes);
    payload
}

#[inline(never)]
fn old_frame_of(bytes: &[u8]) -> Frame
    requires { frame_size_at true bytes.now ≤ length bytes.now }
    ensures { result ≡ packet_at true bytes.now }
{
    let len = bytes[1];
    let offset = OLD_HEADER_BYTES + usize::from(len);
    let payload = payload_of(&bytes[OLD_HEADER_BYTES..offset]);
    Frame {
        old: true,
        compat: 0,
        seq: bytes[2],
        from: Name {
            sys: bytes[3],
            comp: bytes[4],
        },
        id: u32::from(bytes[5]),
        len,
        payload,
        check: number_2(bytes, offset),
        block: None,
    }
}

#[inline(never)]
fn new_frame_of(bytes: &[u8]) -> Frame
    requires { frame_size_at false bytes.now ≤ length bytes.now }
    ensures { result ≡ packet_at false bytes.now }
{
    let len = bytes[1];
    let offset = HEADER_BYTES + usize::from(len);
    let payload = payload_of(&bytes[HEADER_BYTES..offset]);
    Frame {
        old: false,
        compat: bytes[3],
        seq: bytes[4],
        from: Name {
            sys: bytes[5],
            comp: bytes[6],
        },
        id: number_3(bytes, 7),
        len,
        payload,
        check: number_2(bytes, offset),
        block: if bytes[2] == 0 {
            None
        } else {
            Some(block_of(offset + CHECK_BYTES, bytes))
        },
    }
}

pub(crate) fn block_of(at: usize, bytes: &[u8]) -> Block
    requires { at + 13 ≤ length bytes.now }
    ensures { Some result ≡ block_at at bytes.now }
{
    let mut sig = [0; 6];
    sig.copy_from_slice(&bytes[at + 7..at + 13]);
    Block {
        link: bytes[at],
        stamp: number_6(bytes, at + 1),
        sig,
    }
}
