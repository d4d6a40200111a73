// Texts that are put together in a fixed chunk of bytes, of which those up to an index count.
ghost use Rattle.std.specs.Prelude.{◌≡◌, ◌+◌, ◌/◌, ◌%◌, ◌≤◌, ◌++◌, length, replicate, take, vec_len, slice_index};
ghost use Rattle.std.specs.Prelude.{slice_range, slice_set, IfOk};

use crate::NoMemory;

/// How many bytes a chunk has.
pub(crate) const CHUNK_BYTES: usize = 2048;

/// Room in which texts are put together. What it holds between calls doesn't matter.
#[derive(Drop)]
pub struct Chunk {
    pub(crate) bytes: [u8; 2048],
}

impl Chunk {
    pub fn new() -> Chunk
        ensures { result.bytes ≡ replicate 2048 0 }
    {
        Chunk {
            bytes: [0; CHUNK_BYTES],
        }
    }
}

/// Appends the chunk's text if it has more than `most` bytes, and returns where the chunk's text now ends.
#[inline(always)]
pub(crate) fn append_enough(
    chunk: &[u8; 2048],
    end: usize,
    most: usize,
    out: &mut Vec<u8>,
) -> Result<usize, NoMemory>
    requires { end ≤ 2048 }
    ensures room { IfOk result (λ left. left ≤ most) }
    ensures text { IfOk result (λ left. out.new.items ++ take left chunk.now ≡ out.old.items ++ take end chunk.now) }
    ensures prefix { take (vec_len out.old) out.new.items ≡ out.old.items }
{
    if end <= most {
        return Ok(end);
    }
    out.extend_from_slice(&chunk[..end])?;
    Ok(0)
}

/// Puts the first `len` bytes of a part at an index, and returns the index after them. All of the part is copied,
/// since a copy of fixed size is the fastest.
#[inline(always)]
pub fn put_part<const N: usize>(chunk: &mut [u8; N], at: usize, part: &[u8], len: usize) -> usize
    requires room { at + length part.now ≤ N }
    requires len { len ≤ length part.now }
    ensures index { result ≡ at + len }
    ensures text { take result chunk.new ≡ take at chunk.old ++ take len part.now }
{
    let bytes = &mut chunk[..];
    bytes[at..at + part.len()].copy_from_slice(part);
    at + len
}

// Puts eight bytes of a part at an index, and returns the index after them. All are read before one is written, and
// written side by side, which makes one load and one store of them.
#[inline(always)]
fn put_eight<const N: usize, const M: usize>(
    chunk: &mut [u8; N],
    at: usize,
    part: &[u8; M],
    from: usize,
) -> usize
    requires room { at + 8 ≤ N }
    requires part { from + 8 ≤ M }
    ensures index { result ≡ at + 8 }
    ensures text { take result chunk.new ≡ take at chunk.old ++ slice_range part.now from (from + 8) }
{
    let first = part[from];
    let second = part[from + 1];
    let third = part[from + 2];
    let fourth = part[from + 3];
    let fifth = part[from + 4];
    let sixth = part[from + 5];
    let seventh = part[from + 6];
    let eighth = part[from + 7];
    chunk[at] = first;
    chunk[at + 1] = second;
    chunk[at + 2] = third;
    chunk[at + 3] = fourth;
    chunk[at + 4] = fifth;
    chunk[at + 5] = sixth;
    chunk[at + 6] = seventh;
    chunk[at + 7] = eighth;
    at + 8
}

/// Puts the first `len` bytes of a part, at most 24, at an index, and returns the index after them. Always 24 are
/// copied.
#[inline(always)]
pub(crate) fn put_short<const N: usize, const M: usize>(
    chunk: &mut [u8; N],
    at: usize,
    part: &[u8; M],
    len: usize,
) -> usize
    requires room { at + 24 ≤ N }
    requires part { 24 ≤ M }
    requires len { len ≤ 24 }
    ensures index { result ≡ at + len }
    ensures text { take result chunk.new ≡ take at chunk.old ++ take len part.now }
{
    let second = put_eight(chunk, at, part, 0);
    let third = put_eight(chunk, second, part, 8);
    let _end = put_eight(chunk, third, part, 16);
    at + len
}

/// Puts two bytes at an index, and returns the index after them.
#[inline(always)]
pub(crate) fn put_two<const N: usize>(chunk: &mut [u8; N], at: usize, two: [u8; 2]) -> usize
    requires { at + 2 ≤ N }
    ensures index { result ≡ at + 2 }
    ensures text { take result chunk.new ≡ take at chunk.old ++ two }
{
    let [first, second] = two;
    chunk[at] = first;
    chunk[at + 1] = second;
    at + 2
}

/// Writes two bytes over those at an index.
#[inline(always)]
pub(crate) fn set_two<const N: usize>(chunk: &mut [u8; N], at: usize, two: [u8; 2])
    requires { at + 2 ≤ N }
    ensures { chunk.new ≡ slice_set (slice_set chunk.old at (slice_index two 0)) (at + 1) (slice_index two 1) }
{
    let [first, second] = two;
    chunk[at] = first;
    chunk[at + 1] = second;
}

/// The same in a slice.
#[inline(always)]
pub(crate) fn set_pair(bytes: &mut [u8], at: usize, two: [u8; 2])
    requires { at + 2 ≤ length bytes.old }
    ensures { bytes.new ≡ slice_set (slice_set bytes.old at (slice_index two 0)) (at + 1) (slice_index two 1) }
{
    let [first, second] = two;
    bytes[at] = first;
    bytes[at + 1] = second;
}

/// Writes the low byte of a word and its high one, which are one store where the word is in a register.
#[inline(always)]
pub(crate) fn set_word(bytes: &mut [u8], at: usize, word: u16)
    requires { at + 2 ≤ length bytes.old }
    ensures { bytes.new ≡ slice_set (slice_set bytes.old at (word % 256)) (at + 1) (word / 256) }
{
    bytes[at] = (word % 256) as u8;
    bytes[at + 1] = (word / 256) as u8;
}

// Puts four bytes at an index.
#[inline(always)]
fn put_four<const N: usize>(chunk: &mut [u8; N], at: usize, four: [u8; 4])
    requires { at + 4 ≤ N }
    ensures { take (at + 4) chunk.new ≡ take at chunk.old ++ four }
{
    let [first, second, third, fourth] = four;
    let index = put_two(chunk, at, [first, second]);
    let _end = put_two(chunk, index, [third, fourth]);
}

/// Puts four bytes at an index, of which the first `len` count, and returns the index after these.
#[inline(always)]
pub(crate) fn put_of_four<const N: usize>(
    chunk: &mut [u8; N],
    at: usize,
    four: [u8; 4],
    len: usize,
) -> usize
    requires room { at + 4 ≤ N }
    requires len { len ≤ 4 }
    ensures index { result ≡ at + len }
    ensures text { take result chunk.new ≡ take at chunk.old ++ take len four }
{
    put_four(chunk, at, four);
    at + len
}
