// Numbers that are put into a chunk.
ghost use Rattle.std.specs.Prelude.{◌≡◌, ◌+◌, ◌-◌, ◌*◌, ◌/◌, ◌%◌, ◌^◌, ◌<◌, ◌≤◌, ◌∷◌, ◌++◌, length, take, nat_lt};
ghost use Rattle.std.specs.Prelude.{if◌then◌else◌};
ghost use Rattle.std.specs.Fmt.{decimal};
ghost use Rattle.mav_text.specs.FrameText.{pair_text, word_hex};

use crate::chunk::{put_of_four, put_part, put_two};
use crate::digits::{pair_digits, word_digits};
use crate::small::small_digits;

/// Puts the digits of a number below 256 at an index, and returns the index after them. Four bytes are written.
#[inline(always)]
pub fn put_small<const N: usize>(chunk: &mut [u8; N], at: usize, number: u8) -> usize
    requires { at + 4 ≤ N }
    ensures index { (at ≤ result) × (result ≤ at + 3) }
    ensures text { take result chunk.new ≡ take at chunk.old ++ decimal number }
{
    put_digits(chunk, at, number)
}

// The same, by how many digits the number has.
#[inline(always)]
fn put_digits<const N: usize>(chunk: &mut [u8; N], at: usize, number: u8) -> usize
    requires { at + 4 ≤ N }
    ensures index { result ≡ at + length (decimal number) }
    ensures few { result ≤ at + 3 }
    ensures text { take result chunk.new ≡ take at chunk.old ++ decimal number }
{
    let (digits, len) = small_digits(number);
    put_of_four(chunk, at, digits, len)
}

// Four digits of a number below 10,000, the first of which may be zeros.
#[inline(always)]
fn put_four<const N: usize>(chunk: &mut [u8; N], at: usize, number: u32) -> usize
    requires room { at + 4 ≤ N }
    requires number { number < 10000 }
    ensures index { result ≡ at + 4 }
    ensures text { take result chunk.new ≡ take at chunk.old
        ++ (pair_text (number / 100) ++ pair_text (number % 100)) }
{
    let index = put_two(chunk, at, pair_digits((number / 100) as usize));
    put_two(chunk, index, pair_digits((number % 100) as usize))
}

// Eight digits of a number below 100,000,000.
#[inline(always)]
fn put_eight<const N: usize>(chunk: &mut [u8; N], at: usize, number: u32) -> usize
    requires room { at + 8 ≤ N }
    requires number { number < 100000000 }
    ensures index { result ≡ at + 8 }
    ensures text { take result chunk.new ≡ take at chunk.old
        ++ ((pair_text (number / 10000 / 100) ++ pair_text (number / 10000 % 100))
        ++ (pair_text (number % 10000 / 100) ++ pair_text (number % 10000 % 100))) }
{
    let index = put_four(chunk, at, number / 10_000);
    put_four(chunk, index, number % 10_000)
}

// The digits of a number below 10,000.
#[inline(always)]
fn put_low<const N: usize>(chunk: &mut [u8; N], at: usize, number: u32) -> usize
    requires room { at + 5 ≤ N }
    requires number { number < 10000 }
    ensures index { (at ≤ result) × (result ≤ at + 4) }
    ensures text { take result chunk.new ≡ take at chunk.old ++ decimal number }
{
    if number < 100 {
        return put_small(chunk, at, number as u8);
    }
    let index = put_digits(chunk, at, (number / 100) as u8);
    put_two(chunk, index, pair_digits((number % 100) as usize))
}

/// Puts the digits of a number below 100,000,000, and returns the index after them.
#[inline(always)]
pub(crate) fn put_middle<const N: usize>(chunk: &mut [u8; N], at: usize, number: u32) -> usize
    requires room { at + 9 ≤ N }
    requires number { number < 100000000 }
    ensures index { (at ≤ result) × (result ≤ at + 8) }
    ensures text { take result chunk.new ≡ take at chunk.old ++ decimal number }
{
    if number < 10_000 {
        return put_low(chunk, at, number);
    }
    let index = put_low(chunk, at, number / 10_000);
    put_four(chunk, index, number % 10_000)
}

/// Puts the digits of a number at an index, and returns the index after them.
#[inline(always)]
pub fn put_number<const N: usize>(chunk: &mut [u8; N], at: usize, number: u64) -> usize
    requires { at + 24 ≤ N }
    ensures index { (at ≤ result) × (result ≤ at + 20) }
    ensures text { take result chunk.new ≡ take at chunk.old ++ decimal number }
{
    if number < 100_000_000 {
        return put_middle(chunk, at, number as u32);
    }
    put_large(chunk, at, number)
}

// The digits of a number below 1,000,000,000,000.
#[inline(always)]
fn put_high<const N: usize>(chunk: &mut [u8; N], at: usize, number: u64) -> usize
    requires room { at + 13 ≤ N }
    requires number { number < 1000000000000 }
    ensures index { (at ≤ result) × (result ≤ at + 12) }
    ensures text { take result chunk.new ≡ take at chunk.old ++ decimal number }
{
    if number < 100_000_000 {
        return put_middle(chunk, at, number as u32);
    }
    let index = put_low(chunk, at, (number / 100_000_000) as u32);
    put_eight(chunk, index, (number % 100_000_000) as u32)
}

// The digits of a number from 100,000,000 on.
#[inline(never)]
fn put_large<const N: usize>(chunk: &mut [u8; N], at: usize, number: u64) -> usize
    requires room { at + 24 ≤ N }
    requires number { 100000000 ≤ number }
    ensures index { (at ≤ result) × (result ≤ at + 20) }
    ensures text { take result chunk.new ≡ take at chunk.old ++ decimal number }
{
    let index = put_high(chunk, at, number / 100_000_000);
    put_eight(chunk, index, (number % 100_000_000) as u32)
}

/// Puts a number of two's complement, whose negative values are the words from `half` on.
#[inline(always)]
pub(crate) fn put_signed<const N: usize>(
    chunk: &mut [u8; N],
    at: usize,
    word: u64,
    half: u64,
) -> usize
    requires word { word < 2 * half }
    requires room { at + 25 ≤ N }
    ensures index { (at ≤ result) × (result ≤ at + 21) }
    ensures text { take result chunk.new ≡ take at chunk.old
        ++ (if nat_lt word half then decimal word else 45 ∷ decimal (2 * half - word)) }
{
    if word < half {
        return put_number(chunk, at, word);
    }
    chunk[at] = b'-';
    put_number(chunk, at + 1, half - (word - half))
}

/// Puts the eight digits of a word of four bytes, highest byte first.
#[inline(always)]
pub(crate) fn put_word<const N: usize>(chunk: &mut [u8; N], at: usize, word: u64) -> usize
    requires room { at + 8 ≤ N }
    requires word { word < 2 ^ 32 }
    ensures index { result ≡ at + 8 }
    ensures text { take result chunk.new ≡ take at chunk.old ++ word_hex 4 word }
{
    put_part(chunk, at, &word_digits(word), 8)
}

/// Puts the sixteen digits of a word of eight bytes, highest byte first.
#[inline(always)]
pub(crate) fn put_long_word<const N: usize>(chunk: &mut [u8; N], at: usize, word: u64) -> usize
    requires { at + 16 ≤ N }
    ensures index { result ≡ at + 16 }
    ensures text { take result chunk.new ≡ take at chunk.old ++ word_hex 8 word }
{
    let index = put_word(chunk, at, word >> 32);
    put_word(chunk, index, word % (1 << 32))
}
