// Unpacking a payload into values.
ghost use Rattle.std.specs.Prelude.{◌≡◌, ◌+◌, ◌*◌, ◌≤◌, IfOk, slice_index};
ghost use Rattle.field_layout.specs.Payload.{Represents};
ghost use Rattle.field_layout.specs.Reading.{word_from, words_from};

use crate::{Layout, NoMemory, Values};
use std::alloc::Global;

/// The byte at an offset of a payload, 0 past its end.
pub(crate) fn byte_at(payload: &[u8], at: usize) -> u8
    ensures { result ≡ slice_index payload.now at }
{
    payload.get(at).copied().unwrap_or(0)
}

// The word of `size` bytes from an offset on, lowest byte first.
fn read_word(payload: &[u8], at: usize, size: usize) -> u64
    requires size { size ≤ 8 }
    requires within { at + size ≤ 255 }
    ensures { result ≡ word_from payload.now at size }
{
    let mut word = 0u64;
    for done in 0..size {
        let byte = byte_at(payload, at + (size - 1 - done));
        word = word * 256 + byte as u64;
    }
    word
}

// The words of a field.
fn read_words(
    alloc: Global,
    payload: &[u8],
    at: usize,
    size: usize,
    count: usize,
) -> Result<Vec<u64>, NoMemory>
    requires size { size ≤ 8 }
    requires within { at + size * count ≤ 255 }
    ensures { IfOk result (λ words. words.items ≡ words_from payload.now at size count) }
{
    let mut words = Vec::new(alloc);
    for element in 0..count {
        words.push(read_word(payload, at + size * element, size))?;
    }
    Ok(words)
}

/// The values that a payload represents. It may be truncated, and bytes past the known length are ignored
/// (MAVLink guide, Packet Serialization: Empty-Byte Payload Truncation).
pub fn unpack(layout: &Layout, payload: &[u8]) -> Result<Values, NoMemory>
    ensures { IfOk result (Represents layout.now payload.now) }
{
    let def = layout.def();
    let alloc = *def.fields.allocator();
    let mut words = Vec::new(alloc);
    for place in 0..def.field_count() {
        let field = def.field(place);
        let at = layout.offset(place) as usize;
        words.push(read_words(alloc, payload, at, field.ty.size(), field.count())?)?;
    }
    Ok(Values::new(words))
}
