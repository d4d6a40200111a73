// The text of a frame.
ghost use Rattle.std.specs.Prelude.{◌≡◌, ◌+◌, ◌≤◌, ◌++◌, length, take, IfOk, OnOk, OnErr, vec_len};
ghost use Rattle.field_layout.specs.Types.{element_size};
ghost use Rattle.field_layout.specs.Definition.{all_fields, base_len_of, element_count, size_of};
ghost use Rattle.field_layout.specs.Reading.{words_from};
ghost use Rattle.mav_text.specs.FrameText.{block_text, field_text, fields_text, frame_text, value_bytes, words_in};

use crate::NoMemory;
use crate::chunk::{CHUNK_BYTES, append_enough, put_part};
use crate::values::{put_block, put_byte, put_sender, put_value, put_version};
use crate::words::{base_bytes, with_zeros};
use field_layout::{Field, Layout};
use mav_frame::{Block, Frame};

// How many bytes of a chunk are enough to append them.
const ENOUGH_BYTES: usize = 512;

// The longest name that is put into a chunk.
const NAME_BYTES: usize = 128;

// Puts a name at an index, or if it is long appends the chunk's text and the name. Returns where the chunk's text now
// ends.
fn put_name(
    chunk: &mut [u8; 2048],
    at: usize,
    name: &[u8],
    out: &mut Vec<u8>,
) -> Result<usize, NoMemory>
    requires { at ≤ 1000 }
    ensures text { IfOk result (λ end. out.new.items ++ take end chunk.new ≡ (out.old.items ++ take at chunk.old)
        ++ name.now) }
    ensures room { IfOk result (λ end. end ≤ at + 128) }
    ensures prefix { take (vec_len out.old) out.new.items ≡ out.old.items }
{
    if name.len() <= NAME_BYTES {
        return Ok(put_part(chunk, at, name, name.len()));
    }
    out.extend_from_slice(&chunk[..at])?;
    out.extend_from_slice(name)?;
    Ok(0)
}

// Puts a field, whose value begins at an offset of the payload, and returns where the chunk's text now ends.
fn put_field(
    chunk: &mut [u8; 2048],
    at: usize,
    field: &Field,
    payload: &[u8],
    offset: usize,
    out: &mut Vec<u8>,
) -> Result<usize, NoMemory>
    requires within { offset + size_of field.now ≤ length payload.now }
    requires payload { length payload.now ≤ 255 }
    requires room { at ≤ 512 }
    ensures text { IfOk result (λ end. out.new.items ++ take end chunk.new ≡ (out.old.items ++ take at chunk.old)
        ++ field_text field.now (words_from payload.now offset (element_size field.now.ty)
        (element_count field.now))) }
    ensures room { IfOk result (λ end. end ≤ 512) }
    ensures prefix { take (vec_len out.old) out.new.items ≡ out.old.items }
{
    let end = put_byte(chunk, at, b' ');
    let end = put_name(chunk, end, field.name.bytes(), out)?;
    let end = put_byte(chunk, end, b'=');
    let end = put_value(chunk, end, field.ty, field.len, payload, offset);
    append_enough(chunk, end, ENOUGH_BYTES, out)
}

// Puts the fields, and returns where the chunk's text now ends.
fn put_all(
    chunk: &mut [u8; 2048],
    at: usize,
    layout: &Layout,
    payload: &[u8],
    out: &mut Vec<u8>,
) -> Result<usize, NoMemory>
    requires payload { length payload.now ≡ 255 }
    requires room { at ≤ 512 }
    ensures text { IfOk result (λ end. out.new.items ++ take end chunk.new ≡ (out.old.items ++ take at chunk.old)
        ++ fields_text (words_in layout.now payload.now) 0 (all_fields layout.now)) }
    ensures room { IfOk result (λ end. end ≤ 512) }
    ensures prefix { take (vec_len out.old) out.new.items ≡ out.old.items }
{
    let def = layout.def();
    let mut end = at;
    for number in 0..def.field_count() {
        let offset = usize::from(layout.offset(number));
        end = put_field(chunk, end, def.field(number), payload, offset, out)?;
    }
    Ok(end)
}

// Puts the end of a signed frame's text, or nothing if there is no signature block.
#[inline]
fn put_block_of(chunk: &mut [u8; 2048], at: usize, block: &Option<Block>) -> usize
    requires { at ≤ 1000 }
    ensures index { result ≤ at + 40 }
    ensures text { take result chunk.new ≡ take at chunk.old ++ block_text block.now }
{
    match block {
        None => at,
        Some(block) => put_block(chunk, at, block.link, block.stamp),
    }
}

// Puts the fields of a frame, and returns where the chunk's text now ends.
fn put_fields_of(
    chunk: &mut [u8; 2048],
    at: usize,
    layout: &Layout,
    frame: &Frame,
    out: &mut Vec<u8>,
) -> Result<usize, NoMemory>
    requires { at ≤ 512 }
    ensures text { IfOk result (λ end. out.new.items ++ take end chunk.new ≡ (out.old.items ++ take at chunk.old)
        ++ fields_text (words_in layout.now (value_bytes (base_len_of layout.now) frame.now)) 0
        (all_fields layout.now)) }
    ensures room { IfOk result (λ end. end ≤ 512) }
    ensures prefix { take (vec_len out.old) out.new.items ≡ out.old.items }
{
    if frame.old {
        let base = base_bytes(frame.payload_bytes(), usize::from(layout.base_len()));
        return put_all(chunk, at, layout, &with_zeros(base), out);
    }
    put_all(chunk, at, layout, &frame.payload, out)
}

// Appends the text, or a part of it.
fn append(layout: &Layout, frame: &Frame, out: &mut Vec<u8>) -> Result<(), NoMemory>
    ensures ok { OnOk result (out.new.items ≡ out.old.items ++ frame_text layout.now frame.now) }
    ensures err { OnErr result (take (vec_len out.old) out.new.items ≡ out.old.items) }
{
    let mut chunk = [0; CHUNK_BYTES];
    let end = put_name(&mut chunk, 0, layout.def().name.bytes(), out)?;
    let end = put_sender(&mut chunk, end, frame.from.sys, frame.from.comp, frame.seq);
    let end = put_version(&mut chunk, end, frame.old);
    let end = put_fields_of(&mut chunk, end, layout, frame, out)?;
    let end = put_block_of(&mut chunk, end, &frame.block);
    out.extend_from_slice(&chunk[..end])?;
    Ok(())
}

/// Appends `decode`'s text of a frame of that layout from the message's name to its last field, and ` signed LINK
/// STAMP` if the frame is signed, without a line end. The frame's id is the layout's.
pub fn put_fields(layout: &Layout, frame: &Frame, out: &mut Vec<u8>) -> Result<(), NoMemory>
    ensures ok { OnOk result (out.new.items ≡ out.old.items ++ frame_text layout.now frame.now) }
    ensures err { OnErr result (out.new.items ≡ out.old.items) }
{
    let before = out.len();
    let put = append(layout, frame, out);
    if put.is_err() {
        out.truncate(before);
    }
    put
}
