// The lines of a hundred skipped bytes at once.
ghost use Rattle.std.specs.Prelude.{◌≡◌, ℕ, ◌+◌, ◌*◌, ◌%◌, ◌^◌, ◌<◌, ◌≤◌, ◌++◌, ◌∷◌, [], codes, length, slice_range};
ghost use Rattle.std.specs.Prelude.{take, OnOk, OnErr};
ghost use Rattle.std.specs.Fmt.{decimal};
ghost use Rattle.mav_text.specs.FrameText.{pair_text, skip_lines, why_text};
ghost use Rattle.mav_text.specs.SkipBlocks.{blank_line, blank_lines};

use crate::NoMemory;
use crate::chunk::{put_part, put_two, set_pair, set_word};
use crate::decimals::put_middle;
use crate::digits::{byte_digits, pair_digits, pair_word};
use crate::skip_ending::SkipEnding;
use mav_frame::Why;
use std::marker::Model;

// The room for a hundred lines of at most 34 bytes, and for what is put behind the last one.
const BLOCK_BYTES: usize = 3424;

/// The lines of a hundred bytes, for one reason and one number of ten thousands: those of their offsets whose last
/// four digits are `00` and a pair, with `00` in place of the byte's digits. A run of them is copied in one piece, and
/// then the digits are written that aren't `00`.
#[derive(Drop)]
pub(crate) struct SkipBlock {
    ten_thousands: u64,
    why: Why,
    bytes: [u8; 3424],
    hundreds_at: usize,
    line_len: usize,
}

impl Model for SkipBlock {
    ghost use Rattle.std.specs.Prelude.{◌≡◌, ◌+◌, ◌*◌, ◌<◌, ◌≤◌, List, ℕ, length, take};
    ghost use Rattle.std.specs.Fmt.{decimal};
    ghost use Rattle.mav_frame.specs.declared.looks.Why.{Why};
    ghost use Rattle.mav_text.specs.SkipBlocks.{blank_line, blank_lines};

    ghost Value = { ℕ × Why };

    ghost view = { λ b. (b.ten_thousands, b.why) };

    ghost invariant = { λ b. (0 < b.ten_thousands) × (b.ten_thousands < 1000000) × (b.line_len ≤ 34)
        × (b.hundreds_at ≡ length (decimal b.ten_thousands))
        × (b.line_len ≡ length (blank_line b.ten_thousands 0 b.why))
        × ((count : ℕ) → count ≤ 100 → take (length (blank_lines count b.ten_thousands 0 b.why)) b.bytes
        ≡ blank_lines count b.ten_thousands 0 b.why) };
}

// Puts the line of an offset whose last four digits are `00` and a pair.
#[inline(always)]
fn put_blank(
    bytes: &mut [u8; 3424],
    at: usize,
    ten_thousands: u64,
    pair: usize,
    skip_ending: &SkipEnding,
) -> usize
    requires room { at ≤ 3366 }
    requires near { ten_thousands < 1000000 }
    requires pair { pair < 100 }
    ensures room { (at ≤ result) × (result ≤ at + 34) }
    ensures text { take result bytes.new ≡ take at bytes.old
        ++ (decimal ten_thousands ++ (codes "00" ++ (pair_text pair ++ skip_ending.now))) }
{
    let hundreds_at = put_middle(bytes, at, ten_thousands as u32);
    let pair_at = put_two(bytes, hundreds_at, [b'0', b'0']);
    let behind = put_two(bytes, pair_at, pair_digits(pair));
    put_part(bytes, behind, &skip_ending.bytes, skip_ending.len)
}

// Puts the lines of all pairs from 0 on.
fn put_blanks(bytes: &mut [u8; 3424], ten_thousands: u64, why: Why, skip_ending: &SkipEnding)
    requires near { ten_thousands < 1000000 }
    requires ending { skip_ending.now ≡ codes " skip 00 " ++ why_text why ++ 10 ∷ [] }
    ensures { (count : ℕ) → count ≤ 100 → take (length (blank_lines count ten_thousands 0 why)) bytes.new
        ≡ blank_lines count ten_thousands 0 why }
{
    let mut at = 0;
    for pair in 0..100 {
        at = put_blank(bytes, at, ten_thousands, pair, skip_ending);
    }
}

// A part of a block.
#[inline(always)]
fn part(bytes: &[u8; 3424], start: usize, end: usize) -> &[u8]
    requires order { start ≤ end }
    requires within { end ≤ 3424 }
    ensures { result.now ≡ slice_range bytes.now start end }
{
    &bytes[start..end]
}

impl SkipBlock {
    pub(crate) fn of(ten_thousands: u64, why: Why) -> SkipBlock
        requires some { 0 < ten_thousands }
        requires near { ten_thousands < 1000000 }
        ensures { result ≡ (ten_thousands, why) }
    {
        let skip_ending = SkipEnding::of(why);
        let mut bytes = [0; BLOCK_BYTES];
        let hundreds_at = put_middle(&mut bytes, 0, ten_thousands as u32);
        put_blanks(&mut bytes, ten_thousands, why, &skip_ending);
        SkipBlock {
            ten_thousands,
            why,
            bytes,
            hundreds_at,
            line_len: hundreds_at + 4 + skip_ending.len,
        }
    }

    // Puts the lines of other ten thousands. Inlined, it would clear its stack at each run.
    #[inline(never)]
    fn renew(&mut self, ten_thousands: u64)
        requires some { 0 < ten_thousands }
        requires near { ten_thousands < 1000000 }
        ensures { self.new ≡ (ten_thousands, self.old.1) }
    {
        *self = SkipBlock::of(ten_thousands, self.why);
    }

    // Makes it that of these ten thousands.
    #[inline(always)]
    fn turn_to(&mut self, ten_thousands: u64)
        requires some { 0 < ten_thousands }
        requires near { ten_thousands < 1000000 }
        ensures { self.new ≡ (ten_thousands, self.old.1) }
    {
        if self.ten_thousands != ten_thousands {
            self.renew(ten_thousands);
        }
    }

    // Where the line of a pair begins, or the last line ends.
    #[inline(always)]
    fn line_start(&self, pair: usize) -> usize
        requires { pair ≤ 100 }
        ensures exact { result ≡ length (blank_lines pair self.now.0 0 self.now.1) }
        ensures within { result ≤ 3400 }
    {
        pair * self.line_len
    }

    // The lines of pairs, one after another.
    #[inline(always)]
    fn lines(&self, pair: usize, count: usize) -> &[u8]
        requires { pair + count ≤ 100 }
        ensures { result.now ≡ blank_lines count self.now.0 pair self.now.1 }
    {
        let start = self.line_start(pair);
        let end = self.line_start(pair + count);
        part(&self.bytes, start, end)
    }

    // Writes over such lines those of bytes, the first of which has an offset with these last four digits.
    #[inline(always)]
    fn fill(&self, lines: &mut [u8], last_four: usize, bytes: &[u8])
        requires last_four { last_four < 10000 }
        requires lines { lines.old ≡ blank_lines (length bytes.now) self.now.0 (last_four % 100) self.now.1 }
        requires same { last_four % 100 + length bytes.now ≤ 100 }
        ensures { lines.new ≡ skip_lines (10000 * self.now.0 + last_four) bytes.now self.now.1 }
    {
        let hundreds = pair_word(last_four / 100);
        let line_len = self.line_len;
        let mut at = self.hundreds_at;
        for byte in bytes {
            set_word(lines, at, hundreds);
            set_pair(lines, at + 10, byte_digits(*byte));
            at += line_len;
        }
    }

    // Appends the lines of bytes whose offsets have the block's ten thousands and the same hundreds.
    #[inline(always)]
    fn put(&self, last_four: usize, bytes: &[u8], out: &mut Vec<u8>) -> Result<(), NoMemory>
        requires last_four { last_four < 10000 }
        requires same { last_four % 100 + length bytes.now ≤ 100 }
        ensures ok { OnOk result (out.new.items ≡ out.old.items
            ++ skip_lines (10000 * self.now.0 + last_four) bytes.now self.now.1) }
        ensures err { OnErr result (out.new.items ≡ out.old.items) }
    {
        let start = out.len();
        out.extend_from_slice(self.lines(last_four % 100, bytes.len()))?;
        self.fill(&mut out[start..], last_four, bytes);
        Ok(())
    }

    /// Appends the lines of bytes whose offsets have the same hundreds.
    pub(crate) fn append(
        &mut self,
        offset: u64,
        bytes: &[u8],
        out: &mut Vec<u8>,
    ) -> Result<(), NoMemory>
        requires some { 10000 ≤ offset }
        requires near { offset < 10 ^ 10 }
        requires same { offset % 100 + length bytes.now ≤ 100 }
        ensures why { self.new.1 ≡ self.old.1 }
        ensures ok { OnOk result (out.new.items ≡ out.old.items ++ skip_lines offset bytes.now self.old.1) }
        ensures err { OnErr result (out.new.items ≡ out.old.items) }
    {
        self.turn_to(offset / 10_000);
        self.put((offset % 10_000) as usize, bytes, out)
    }
}
