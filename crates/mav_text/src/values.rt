// Values of fields that are put into a chunk.
ghost use Rattle.std.specs.Prelude.{◌≡◌, ◌+◌, ◌*◌, ◌<◌, ◌≤◌, ◌==◌, [], ◌∷◌, ◌++◌, codes, length, take, if◌then◌else◌};
ghost use Rattle.std.specs.Fmt.{decimal};
ghost use Rattle.field_layout.specs.Types.{element_size};
ghost use Rattle.field_layout.specs.Reading.{word_from, words_from};
ghost use Rattle.field_layout.specs.declared.ty.Ty.TheVariants.{U8};
ghost use Rattle.mav_text.specs.FrameText.{number_text, char_text, chars_text, further_text, values_text, shown_text};
ghost use Rattle.mav_text.specs.FrameText.{version_text};

use crate::chunk::{put_part, put_two};
use crate::decimals::{put_long_word, put_number, put_signed, put_small, put_word};
use crate::digits::byte_digits;
use crate::words::{read_byte, read_eight, read_four, read_two};
use field_layout::Ty;

/// Puts a byte at an index, and returns the index after it.
#[inline(always)]
pub(crate) fn put_byte(chunk: &mut [u8; 2048], at: usize, byte: u8) -> usize
    requires { at < 2048 }
    ensures index { result ≡ at + 1 }
    ensures text { take result chunk.new ≡ take at chunk.old ++ byte ∷ [] }
{
    chunk[at] = byte;
    at + 1
}

/// Puts the number of that type that stands at an offset of the payload.
#[inline(always)]
fn put_one(chunk: &mut [u8; 2048], at: usize, ty: Ty, payload: &[u8], offset: usize) -> usize
    requires within { offset + element_size ty ≤ length payload.now }
    requires room { at + 25 ≤ 2048 }
    ensures index { (at ≤ result) × (result ≤ at + 4 * element_size ty) }
    ensures text { take result chunk.new ≡ take at chunk.old
        ++ number_text ty (word_from payload.now offset (element_size ty)) }
{
    match ty {
        Ty::U8 | Ty::Version | Ty::Char => put_small(chunk, at, read_byte(payload, offset)),
        Ty::I8 => put_signed(chunk, at, u64::from(read_byte(payload, offset)), 1 << 7),
        Ty::U16 => put_number(chunk, at, read_two(payload, offset)),
        Ty::I16 => put_signed(chunk, at, read_two(payload, offset), 1 << 15),
        Ty::U32 => put_number(chunk, at, read_four(payload, offset)),
        Ty::I32 => put_signed(chunk, at, read_four(payload, offset), 1 << 31),
        Ty::F32 => put_word(chunk, at, read_four(payload, offset)),
        Ty::U64 => put_number(chunk, at, read_eight(payload, offset)),
        Ty::I64 => put_signed(chunk, at, read_eight(payload, offset), 1 << 63),
        Ty::F64 => put_long_word(chunk, at, read_eight(payload, offset)),
    }
}

// Puts a character of a text.
#[inline(always)]
fn put_char(chunk: &mut [u8; 2048], at: usize, byte: u8) -> usize
    requires { at + 4 ≤ 2048 }
    ensures index { (at ≤ result) × (result ≤ at + 4) }
    ensures text { take result chunk.new ≡ take at chunk.old ++ char_text byte }
{
    if byte >= 0x20 && byte <= 0x7E && byte != b'"' && byte != b'\\' {
        return put_byte(chunk, at, byte);
    }
    let [high, low] = byte_digits(byte);
    put_part(chunk, at, &[b'\\', b'x', high, low], 4)
}

// Puts the characters up to the first zero.
fn put_chars(chunk: &mut [u8; 2048], at: usize, payload: &[u8], from: usize, count: usize) -> usize
    requires within { from + count ≤ length payload.now }
    requires room { at + 4 * count ≤ 2048 }
    ensures index { (at ≤ result) × (result ≤ at + 4 * count) }
    ensures text { take result chunk.new ≡ take at chunk.old ++ chars_text (words_from payload.now from 1 count) }
{
    let mut end = at;
    let mut offset = from;
    let mut left = count;
    while left > 0 {
        let byte = read_byte(payload, offset);
        if byte == 0 {
            return end;
        }
        end = put_char(chunk, end, byte);
        offset += 1;
        left -= 1;
    }
    end
}

// Puts characters in double quotes.
#[inline(never)]
fn put_quoted(chunk: &mut [u8; 2048], at: usize, payload: &[u8], from: usize, count: usize) -> usize
    requires within { from + count ≤ length payload.now }
    requires room { at + 4 * count + 2 ≤ 2048 }
    ensures index { (at ≤ result) × (result ≤ at + 4 * count + 2) }
    ensures text { take result chunk.new ≡ take at chunk.old
        ++ (34 ∷ chars_text (words_from payload.now from 1 count) ++ 34 ∷ []) }
{
    let start = put_byte(chunk, at, b'"');
    let end = put_chars(chunk, start, payload, from, count);
    put_byte(chunk, end, b'"')
}

// Puts bytes with a comma before each.
fn put_further_bytes(
    chunk: &mut [u8; 2048],
    at: usize,
    payload: &[u8],
    from: usize,
    count: usize,
) -> usize
    requires within { from + count ≤ length payload.now }
    requires room { at + 5 * count ≤ 2048 }
    ensures index { (at ≤ result) × (result ≤ at + 5 * count) }
    ensures text { take result chunk.new ≡ take at chunk.old ++ further_text U8 (words_from payload.now from 1 count) }
{
    let mut end = at;
    let mut offset = from;
    let mut left = count;
    while left > 0 {
        let start = put_byte(chunk, end, b',');
        end = put_small(chunk, start, read_byte(payload, offset));
        offset += 1;
        left -= 1;
    }
    end
}

// Puts values with a comma before each.
fn put_further(
    chunk: &mut [u8; 2048],
    at: usize,
    ty: Ty,
    payload: &[u8],
    from: usize,
    count: usize,
) -> usize
    requires within { from + element_size ty * count ≤ length payload.now }
    requires room { at + 5 * (element_size ty * count) + 25 ≤ 2048 }
    ensures index { (at ≤ result) × (result ≤ at + 5 * (element_size ty * count)) }
    ensures text { take result chunk.new ≡ take at chunk.old
        ++ further_text ty (words_from payload.now from (element_size ty) count) }
{
    if matches!(ty, Ty::U8) {
        return put_further_bytes(chunk, at, payload, from, count);
    }
    let size = ty.size();
    let mut end = at;
    let mut offset = from;
    let mut left = count;
    while left > 0 {
        let start = put_byte(chunk, end, b',');
        end = put_one(chunk, start, ty, payload, offset);
        offset += size;
        left -= 1;
    }
    end
}

// Puts values parted by commas.
#[inline]
fn put_values(
    chunk: &mut [u8; 2048],
    at: usize,
    ty: Ty,
    payload: &[u8],
    from: usize,
    count: usize,
) -> usize
    requires some { 0 < count }
    requires within { from + element_size ty * count ≤ length payload.now }
    requires room { at + 5 * (element_size ty * count) + 25 ≤ 2048 }
    ensures index { (at ≤ result) × (result ≤ at + 5 * (element_size ty * count)) }
    ensures text { take result chunk.new ≡ take at chunk.old
        ++ values_text ty (words_from payload.now from (element_size ty) count) }
{
    let first = put_one(chunk, at, ty, payload, from);
    put_further(chunk, first, ty, payload, from + ty.size(), count - 1)
}

// Puts an array in square brackets.
#[inline(never)]
fn put_array(
    chunk: &mut [u8; 2048],
    at: usize,
    ty: Ty,
    payload: &[u8],
    from: usize,
    count: usize,
) -> usize
    requires some { 0 < count }
    requires within { from + element_size ty * count ≤ length payload.now }
    requires room { at + 5 * (element_size ty * count) + 26 ≤ 2048 }
    ensures index { (at ≤ result) × (result ≤ 2048) }
    ensures text { take result chunk.new ≡ take at chunk.old
        ++ (91 ∷ values_text ty (words_from payload.now from (element_size ty) count) ++ 93 ∷ []) }
{
    let start = put_byte(chunk, at, b'[');
    let end = put_values(chunk, start, ty, payload, from, count);
    put_byte(chunk, end, b']')
}

// How many elements a value of that length has.
#[inline(always)]
fn count_of(len: u8) -> usize
    ensures { result ≡ if len == 0 then 1 else len }
{
    if len == 0 { 1 } else { usize::from(len) }
}

/// Puts a value of so many elements of a type, 0 for a single one, that begins at an offset of the payload.
#[inline(always)]
pub(crate) fn put_value(
    chunk: &mut [u8; 2048],
    at: usize,
    ty: Ty,
    len: u8,
    payload: &[u8],
    offset: usize,
) -> usize
    requires within { offset + element_size ty * (if len == 0 then 1 else len) ≤ length payload.now }
    requires payload { length payload.now ≤ 255 }
    requires room { at ≤ 700 }
    ensures index { (at ≤ result) × (result ≤ 2048) }
    ensures text { take result chunk.new ≡ take at chunk.old
        ++ shown_text ty len (words_from payload.now offset (element_size ty) (if len == 0 then 1 else len)) }
{
    if matches!(ty, Ty::Char) {
        return put_quoted(chunk, at, payload, offset, count_of(len));
    }
    if len == 0 {
        return put_one(chunk, at, ty, payload, offset);
    }
    put_array(chunk, at, ty, payload, offset, usize::from(len))
}

/// Puts ` SYS.COMP #SEQ`.
#[inline]
pub(crate) fn put_sender(chunk: &mut [u8; 2048], at: usize, sys: u8, comp: u8, seq: u8) -> usize
    requires { at ≤ 1000 }
    ensures index { (at ≤ result) × (result ≤ at + 16) }
    ensures text { take result chunk.new ≡ take at chunk.old
        ++ (32 ∷ decimal sys ++ 46 ∷ decimal comp ++ 32 ∷ 35 ∷ decimal seq) }
{
    let index = put_byte(chunk, at, b' ');
    let index = put_small(chunk, index, sys);
    let index = put_byte(chunk, index, b'.');
    let index = put_small(chunk, index, comp);
    let index = put_two(chunk, index, *b" #");
    put_small(chunk, index, seq)
}

/// Puts ` v1` for a frame of MAVLink 1.
#[inline(always)]
pub(crate) fn put_version(chunk: &mut [u8; 2048], at: usize, old: bool) -> usize
    requires { at ≤ 1000 }
    ensures index { (at ≤ result) × (result ≤ at + 3) }
    ensures text { take result chunk.new ≡ take at chunk.old ++ version_text old }
{
    if old {
        put_part(chunk, at, b" v1", 3)
    } else {
        at
    }
}

/// Puts ` signed LINK STAMP`.
#[inline]
pub(crate) fn put_block(chunk: &mut [u8; 2048], at: usize, link: u8, stamp: u64) -> usize
    requires { at ≤ 1000 }
    ensures index { (at ≤ result) × (result ≤ at + 40) }
    ensures text { take result chunk.new ≡ take at chunk.old
        ++ (codes " signed " ++ decimal link ++ 32 ∷ decimal stamp) }
{
    let index = put_part(chunk, at, b" signed ", 8);
    let index = put_small(chunk, index, link);
    let index = put_byte(chunk, index, b' ');
    put_number(chunk, index, stamp)
}
