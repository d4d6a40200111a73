// The texts of skipped bytes.
ghost use Rattle.std.specs.Prelude.{◌≡◌, ◌+◌, ◌%◌, ◌^◌, ◌<◌, ◌≤◌, ◌++◌, length, take, drop, OnOk, OnErr, vec_len};
ghost use Rattle.mav_frame.specs.declared.looks.Why.TheVariants.{NotStx, UnknownFlag, UnknownId};
ghost use Rattle.mav_text.specs.FrameText.{byte_hex, skip_line, skip_lines};

use crate::NoMemory;
use crate::chunk::{put_part, set_two};
use crate::decimals::put_number;
use crate::digits::byte_digits;
use crate::skip_block::SkipBlock;
use crate::skip_ending::SkipEnding;
use mav_frame::Why;
use std::marker::Model;

// More than the longest line has.
const LINE_BYTES: usize = 48;

// From here on offsets have ten thousands, and up to here few enough of them for a block.
const NEAR_OFFSET: u64 = 10_000;

const FAR_OFFSET: u64 = 10_000_000_000;

/// Blocks of lines for the reasons for which many bytes are skipped one after another. They are kept from call to
/// call.
#[derive(Drop)]
pub struct SkipBlocks {
    not_stx: SkipBlock,
    unknown_flag: SkipBlock,
    unknown_id: SkipBlock,
}

impl Model for SkipBlocks {
    ghost use Rattle.std.specs.Prelude.{◌≡◌};
    ghost use Rattle.mav_frame.specs.declared.looks.Why.TheVariants.{NotStx, UnknownFlag, UnknownId};

    ghost Value = { Unit {0} };

    ghost view = { λ b. tt };

    ghost invariant = { λ b. (b.not_stx.1 ≡ NotStx) × (b.unknown_flag.1 ≡ UnknownFlag)
        × (b.unknown_id.1 ≡ UnknownId) };
}

impl SkipBlocks {
    pub fn new() -> SkipBlocks {
        SkipBlocks {
            not_stx: SkipBlock::of(1, Why::NotStx),
            unknown_flag: SkipBlock::of(1, Why::UnknownFlag),
            unknown_id: SkipBlock::of(1, Why::UnknownId),
        }
    }
}

/// Appends `decode`'s line of a skipped byte: `OFFSET skip BYTE WHY`, with the byte as two hexadecimal digits.
pub fn put_skip(offset: u64, byte: u8, why: Why, out: &mut Vec<u8>) -> Result<(), NoMemory>
    ensures ok { OnOk result (out.new.items ≡ out.old.items ++ skip_line offset byte why) }
    ensures err { OnErr result (out.new.items ≡ out.old.items) }
{
    let mut line = [0; LINE_BYTES];
    let index = put_number(&mut line, 0, offset);
    let end = put_behind(&mut line, index, byte, &SkipEnding::of(why));
    out.extend_from_slice(&line[..end])?;
    Ok(())
}

// Puts what stands after the offset of a line: all of the template, and then the byte's digits in it.
#[inline(always)]
fn put_behind<const N: usize>(
    chunk: &mut [u8; N],
    at: usize,
    byte: u8,
    skip_ending: &SkipEnding,
) -> usize
    requires room { at + 24 ≤ N }
    requires digits { 8 ≤ length skip_ending.now }
    ensures room { (at ≤ result) × (result ≤ at + 24) }
    ensures text { take result chunk.new ≡ take at chunk.old
        ++ (take 6 skip_ending.now ++ byte_hex byte ++ drop 8 skip_ending.now) }
{
    let end = put_part(chunk, at, &skip_ending.bytes, skip_ending.len);
    set_two(chunk, at + 6, byte_digits(byte));
    end
}

// How many of some bytes have offsets with the same hundreds as the first.
fn run_length(offset: u64, count: usize) -> usize
    ensures some { 0 < count → 0 < result }
    ensures within { result ≤ count }
    ensures same { offset % 100 + result ≤ 100 }
{
    let room = (100 - offset % 100) as usize;
    room.min(count)
}

// Appends the lines of bytes from offset 10,000 on, or some of them.
fn append_runs(
    offset: u64,
    bytes: &[u8],
    block: &mut SkipBlock,
    out: &mut Vec<u8>,
) -> Result<(), NoMemory>
    requires some { 10000 ≤ offset }
    requires near { offset + length bytes.now < 10 ^ 10 }
    ensures why { block.new.1 ≡ block.old.1 }
    ensures ok { OnOk result (out.new.items ≡ out.old.items ++ skip_lines offset bytes.now block.old.1) }
    ensures err { OnErr result (take (vec_len out.old) out.new.items ≡ out.old.items) }
{
    let mut done = 0;
    while done < bytes.len() {
        let line_offset = offset + done as u64;
        let next = done + run_length(line_offset, bytes.len() - done);
        block.append(line_offset, &bytes[done..next], out)?;
        done = next;
    }
    Ok(())
}

// Appends the lines of bytes one by one, or some of them.
fn append_each(offset: u64, bytes: &[u8], why: Why, out: &mut Vec<u8>) -> Result<(), NoMemory>
    requires { offset + length bytes.now < 2 ^ 64 }
    ensures ok { OnOk result (out.new.items ≡ out.old.items ++ skip_lines offset bytes.now why) }
    ensures err { OnErr result (take (vec_len out.old) out.new.items ≡ out.old.items) }
{
    let mut line_offset = offset;
    for byte in bytes {
        put_skip(line_offset, *byte, why, out)?;
        line_offset += 1;
    }
    Ok(())
}

// How many of some bytes stand before offset 10,000.
fn small_length(offset: u64, count: usize) -> usize
    ensures within { result ≤ count }
    ensures behind { result < count → 10000 ≤ offset + result }
{
    if offset >= NEAR_OFFSET {
        return 0;
    }
    count.min((NEAR_OFFSET - offset) as usize)
}

// Appends the lines by the block of their reason, or some of them.
fn append_by_block(
    offset: u64,
    bytes: &[u8],
    why: Why,
    blocks: &mut SkipBlocks,
    out: &mut Vec<u8>,
) -> Result<(), NoMemory>
    requires some { 10000 ≤ offset }
    requires near { offset + length bytes.now < 10 ^ 10 }
    ensures ok { OnOk result (out.new.items ≡ out.old.items ++ skip_lines offset bytes.now why) }
    ensures err { OnErr result (take (vec_len out.old) out.new.items ≡ out.old.items) }
{
    match why {
        Why::NotStx => append_runs(offset, bytes, &mut blocks.not_stx, out),
        Why::UnknownFlag => append_runs(offset, bytes, &mut blocks.unknown_flag, out),
        Why::UnknownId => append_runs(offset, bytes, &mut blocks.unknown_id, out),
        Why::BadCheck | Why::Short => append_each(offset, bytes, why, out),
    }
}

// Appends the lines, or some of them.
fn append_lines(
    offset: u64,
    bytes: &[u8],
    why: Why,
    blocks: &mut SkipBlocks,
    out: &mut Vec<u8>,
) -> Result<(), NoMemory>
    requires { offset + length bytes.now < 2 ^ 64 }
    ensures ok { OnOk result (out.new.items ≡ out.old.items ++ skip_lines offset bytes.now why) }
    ensures err { OnErr result (take (vec_len out.old) out.new.items ≡ out.old.items) }
{
    if offset + bytes.len() as u64 >= FAR_OFFSET {
        return append_each(offset, bytes, why, out);
    }
    let small = small_length(offset, bytes.len());
    append_each(offset, &bytes[..small], why, out)?;
    if small == bytes.len() {
        return Ok(());
    }
    append_by_block(offset + small as u64, &bytes[small..], why, blocks, out)?;
    Ok(())
}

/// Appends the lines of bytes that are skipped one after another for one reason, the first of which stands at
/// `offset`.
pub fn put_skips(
    offset: u64,
    bytes: &[u8],
    why: Why,
    blocks: &mut SkipBlocks,
    out: &mut Vec<u8>,
) -> Result<(), NoMemory>
    requires { offset + length bytes.now < 2 ^ 64 }
    ensures ok { OnOk result (out.new.items ≡ out.old.items ++ skip_lines offset bytes.now why) }
    ensures err { OnErr result (out.new.items ≡ out.old.items) }
{
    if bytes.len() == 1 {
        return put_skip(offset, bytes[0], why, out);
    }
    let before = out.len();
    let put = append_lines(offset, bytes, why, blocks, out);
    if put.is_err() {
        out.truncate(before);
    }
    put
}
