// What is kept of a message, so that its frames are written fast.
ghost use Rattle.std.specs.Prelude.{◌≡◌, ◌+◌, ◌≤◌, ◌∷◌, ◌++◌, [], length, take, vec_len, OnOk, OnErr, IfOk, IfSome};
ghost use Rattle.std.specs.Prelude.{is_some};
ghost use Rattle.std.specs.Fmt.{decimal};
ghost use Rattle.field_layout.specs.Definition.{all_fields};
ghost use Rattle.mav_frame.specs.Looks.{frame_size_at, header_size, packet_at};
ghost use Rattle.mav_frame.specs.Numbers.{number_at};
ghost use Rattle.mav_text.specs.FrameText.{block_text, sender_text, value_bytes, version_text};
ghost use Rattle.mav_text.specs.TemplateText as spec;

use crate::NoMemory;
use crate::chunk::{append_enough, put_part, put_short};
use crate::decimals::put_number;
use crate::values::{put_block, put_sender, put_value, put_version};
use crate::words::{base_bytes, read_four, read_two, with_zeros};
use field_layout::{Field, Layout, Ty};
use std::alloc::Global;
use std::marker::Model;

// The most bytes before a value that a copy of fixed size takes, and of most fields.
const PREFIX_BYTES: usize = 72;

const SHORT_PREFIX_BYTES: usize = 24;

// How many bytes of a line are put together before they are appended.
const ENOUGH_BYTES: usize = 512;

// The bytes of the headers and of a checksum.
const HEADER_BYTES: usize = 10;

const OLD_HEADER_BYTES: usize = 6;

const CHECK_BYTES: usize = 2;

/// A name, or ` name=`, in at most 72 bytes.
#[derive(Drop)]
pub(crate) struct Prefix {
    bytes: [u8; 72],
    len: usize,
}

impl Model for Prefix {
    ghost use Rattle.std.specs.Prelude.{List, ℕ, ◌≤◌, take};

    ghost Value = { List ℕ };

    ghost view = { λ f. take f.len f.bytes };

    ghost invariant = { λ f. f.len ≤ 72 };
}

/// A field as it is written: what stands before its value, its type and length, and where its value begins in the
/// payload.
#[derive(Drop)]
pub(crate) struct FieldTemplate {
    prefix: Prefix,
    ty: Ty,
    len: u8,
    at: usize,
}

impl Model for FieldTemplate {
    ghost use Rattle.mav_text.specs.TemplateText as spec;

    ghost Value = { spec.FieldTemplate };

    ghost view = { λ t. record { prefix = t.prefix; ty = t.ty; len = t.len; at = t.at } };
}

/// A message as its frames are written.
#[derive(Drop)]
pub(crate) struct LineTemplate {
    name: Prefix,
    field_templates: Vec<FieldTemplate>,
    base_len: usize,
    full_len: usize,
}

impl Model for LineTemplate {
    ghost use Rattle.std.specs.Prelude.{◌≤◌};
    ghost use Rattle.mav_text.specs.TemplateText as spec;

    ghost Value = { spec.LineTemplate };

    ghost view = { λ t. record {
      name = t.name;
      field_templates = t.field_templates.items;
      base_len = t.base_len;
      full_len = t.full_len;
    } };

    ghost invariant = { λ t. (t.full_len ≤ 255) × spec.AreWithin t.full_len t.field_templates.items };
}

impl Prefix {
    /// A text as it is, if it isn't too long.
    pub(crate) fn of(text: &[u8]) -> Option<Prefix>
        ensures { result ≡ spec.prefix_of text.now }
    {
        if text.len() > PREFIX_BYTES {
            return None;
        }
        let mut bytes = [0; PREFIX_BYTES];
        let len = put_part(&mut bytes, 0, text, text.len());
        Some(Prefix { bytes, len })
    }

    // A space, a name and an equals sign, if they aren't too long.
    fn of_field(name: &[u8]) -> Option<Prefix>
        ensures { result ≡ spec.prefix_of (32 ∷ name.now ++ 61 ∷ []) }
    {
        if name.len() > PREFIX_BYTES - 2 {
            return None;
        }
        let mut bytes = [0; PREFIX_BYTES];
        let begin = put_part(&mut bytes, 0, b" ", 1);
        let end = put_part(&mut bytes, begin, name, name.len());
        let len = put_part(&mut bytes, end, b"=", 1);
        Some(Prefix { bytes, len })
    }

    /// Puts the text at an index, and returns the index after it.
    #[inline(always)]
    pub(crate) fn put(&self, chunk: &mut [u8; 2048], at: usize) -> usize
        requires { at + 72 ≤ 2048 }
        ensures index { (at ≤ result) × (result ≤ at + 72) }
        ensures text { take result chunk.new ≡ take at chunk.old ++ self.now }
    {
        if self.len <= SHORT_PREFIX_BYTES {
            put_short(chunk, at, &self.bytes, self.len)
        } else {
            put_part(chunk, at, &self.bytes, self.len)
        }
    }
}

impl FieldTemplate {
    // The template of a field that begins at an offset of the payload, if its name isn't too long.
    fn of(field: &Field, at: usize) -> Option<FieldTemplate>
        ensures { result ≡ spec.if_short (spec.field_template_at at field.now) }
    {
        let prefix = Prefix::of_field(field.name.bytes())?;
        Some(FieldTemplate {
            prefix,
            ty: field.ty,
            len: field.len,
            at,
        })
    }

    // Puts the field with its value, and returns the index after it.
    #[inline(always)]
    fn put(&self, payload: &[u8], chunk: &mut [u8; 2048], at: usize) -> usize
        requires within { spec.IsWithin (length payload.now) self.now }
        requires payload { length payload.now ≤ 255 }
        requires room { at ≤ 512 }
        ensures index { result ≤ 2048 }
        ensures text { take result chunk.new ≡ take at chunk.old ++ spec.field_template_text payload.now self.now }
    {
        let index = self.prefix.put(chunk, at);
        put_value(chunk, index, self.ty, self.len, payload, self.at)
    }
}

// The templates of a message's fields, if none of their names is too long.
fn field_templates_of(
    alloc: Global,
    layout: &Layout,
) -> Result<Option<Vec<FieldTemplate>>, NoMemory>
    ensures field_templates { IfOk result (λ made. IfSome made
        (λ field_templates. field_templates.items ≡ spec.field_templates_from layout.now 0 (all_fields layout.now))) }
    ensures short { IfOk result (λ made. is_some made
        ≡ spec.are_short (spec.field_templates_from layout.now 0 (all_fields layout.now))) }
{
    let def = layout.def();
    let mut field_templates = Vec::new(alloc);
    for number in 0..def.field_count() {
        let at = usize::from(layout.offset(number));
        let Some(field_template) = FieldTemplate::of(def.field(number), at) else {
            return Ok(None);
        };
        field_templates.push(field_template)?;
    }
    Ok(Some(field_templates))
}

// Puts the fields with the values that stand in a whole payload, and returns where the chunk's text now ends.
fn put_field_templates(
    field_templates: &[FieldTemplate],
    payload: &[u8],
    chunk: &mut [u8; 2048],
    at: usize,
    out: &mut Vec<u8>,
) -> Result<usize, NoMemory>
    requires within { spec.AreWithin (length payload.now) field_templates.now }
    requires payload { length payload.now ≤ 255 }
    requires room { at ≤ 512 }
    ensures room { IfOk result (λ left. left ≤ 512) }
    ensures text { IfOk result (λ left. out.new.items ++ take left chunk.new ≡ (out.old.items ++ take at chunk.old)
        ++ spec.field_templates_text payload.now field_templates.now) }
    ensures prefix { take (vec_len out.old) out.new.items ≡ out.old.items }
{
    let mut left = at;
    for field_template in field_templates {
        let end = field_template.put(payload, chunk, left);
        left = append_enough(chunk, end, ENOUGH_BYTES, out)?;
    }
    Ok(left)
}

// The timestamp of six bytes from an offset on.
#[inline(always)]
fn read_stamp(frame: &[u8], at: usize) -> u64
    requires { at + 6 ≤ length frame.now }
    ensures { result ≡ number_at 6 at frame.now }
{
    let low = read_four(frame, at);
    let high = read_two(frame, at + 4);
    low + 4_294_967_296 * high
}

/// Puts an offset and a space at the start, and returns the index after them.
#[inline(always)]
pub(crate) fn put_offset(offset: u64, chunk: &mut [u8; 2048]) -> usize
    ensures index { result ≤ 21 }
    ensures text { take result chunk.new ≡ decimal offset ++ 32 ∷ [] }
{
    let index = put_number(chunk, 0, offset);
    put_part(chunk, index, b" ", 1)
}

// Puts the sender and the sequence number of a frame, and returns the index after them.
#[inline(always)]
fn put_sender_of(is_old: bool, frame: &[u8], chunk: &mut [u8; 2048], at: usize) -> usize
    requires whole { header_size is_old ≤ length frame.now }
    requires room { at ≤ 1000 }
    ensures index { (at ≤ result) × (result ≤ at + 16) }
    ensures text { take result chunk.new ≡ take at chunk.old ++ sender_text (packet_at is_old frame.now) }
{
    if is_old {
        put_sender(chunk, at, frame[3], frame[4], frame[2])
    } else {
        put_sender(chunk, at, frame[5], frame[6], frame[4])
    }
}

// Puts what stands after the fields of a frame if it is signed, and returns the index after it.
#[inline(always)]
fn put_signed_by(is_old: bool, frame: &[u8], chunk: &mut [u8; 2048], at: usize) -> usize
    requires whole { frame_size_at is_old frame.now ≤ length frame.now }
    requires room { at ≤ 512 }
    ensures index { result ≤ at + 40 }
    ensures text { take result chunk.new ≡ take at chunk.old ++ block_text (packet_at is_old frame.now).block }
{
    if is_old || frame[2] == 0 {
        return at;
    }
    let index = HEADER_BYTES + usize::from(frame[1]) + CHECK_BYTES;
    put_block(chunk, at, frame[index], read_stamp(frame, index + 1))
}

impl LineTemplate {
    /// What is kept of a message, if none of its names is too long.
    pub(crate) fn of(alloc: Global, layout: &Layout) -> Result<Option<LineTemplate>, NoMemory>
        ensures same { IfOk result (λ made. IfSome made
            (λ line_template. line_template ≡ spec.line_template_of layout.now)) }
        ensures short { IfOk result (λ made. is_some made ≡ spec.has_short_names layout.now) }
    {
        let Some(name) = Prefix::of(layout.def().name.bytes()) else {
            return Ok(None);
        };
        let Some(field_templates) = field_templates_of(alloc, layout)? else {
            return Ok(None);
        };
        Ok(Some(LineTemplate {
            name,
            field_templates,
            base_len: usize::from(layout.base_len()),
            full_len: usize::from(layout.full_len()),
        }))
    }

    // Puts the line of a frame up to its fields at the start of the chunk, and returns the index after it.
    #[inline(always)]
    fn put_head(&self, is_old: bool, offset: u64, frame: &[u8], chunk: &mut [u8; 2048]) -> usize
        requires { header_size is_old ≤ length frame.now }
        ensures index { result ≤ 512 }
        ensures text { take result chunk.new ≡ (((decimal offset ++ 32 ∷ []) ++ self.now.name)
            ++ sender_text (packet_at is_old frame.now)) ++ version_text is_old }
    {
        let index = put_offset(offset, chunk);
        let index = self.name.put(chunk, index);
        let index = put_sender_of(is_old, frame, chunk, index);
        put_version(chunk, index, is_old)
    }

    // The bytes of a frame's payload that values are read from.
    #[inline(always)]
    fn value_bytes<'a>(&self, is_old: bool, frame: &'a [u8]) -> &'a [u8]
        requires { frame_size_at is_old frame.now ≤ length frame.now }
        ensures bytes { result.now ≡ value_bytes self.now.base_len (packet_at is_old frame.now) }
        ensures short { length result.now ≤ 255 }
    {
        let len = usize::from(frame[1]);
        if is_old {
            base_bytes(
                &frame[OLD_HEADER_BYTES..OLD_HEADER_BYTES + len],
                self.base_len,
            )
        } else {
            &frame[HEADER_BYTES..HEADER_BYTES + len]
        }
    }

    // Puts the fields with the values that stand in a payload, whose bytes past its end are 0.
    #[inline(always)]
    fn put_fields(
        &self,
        payload: &[u8],
        chunk: &mut [u8; 2048],
        at: usize,
        out: &mut Vec<u8>,
    ) -> Result<usize, NoMemory>
        requires payload { length payload.now ≤ 255 }
        requires room { at ≤ 512 }
        ensures room { IfOk result (λ left. left ≤ 512) }
        ensures text { IfOk result (λ left. out.new.items ++ take left chunk.new ≡ (out.old.items ++ take at chunk.old)
            ++ spec.field_templates_text payload.now self.now.field_templates) }
        ensures prefix { take (vec_len out.old) out.new.items ≡ out.old.items }
    {
        if payload.len() < self.full_len {
            return put_field_templates(&self.field_templates, &with_zeros(payload), chunk, at, out);
        }
        put_field_templates(&self.field_templates, payload, chunk, at, out)
    }

    /// Appends the line of the frame that stands at the start of some bytes, or a part of it.
    #[inline(always)]
    pub(crate) fn append_line(
        &self,
        is_old: bool,
        offset: u64,
        frame: &[u8],
        ending: &[u8],
        chunk: &mut [u8; 2048],
        out: &mut Vec<u8>,
    ) -> Result<(), NoMemory>
        requires whole { frame_size_at is_old frame.now ≤ length frame.now }
        requires short { length ending.now ≤ 16 }
        ensures ok { OnOk result (out.new.items ≡ out.old.items
            ++ spec.template_line self.now offset (packet_at is_old frame.now) ending.now) }
        ensures err { OnErr result (take (vec_len out.old) out.new.items ≡ out.old.items) }
    {
        let head = self.put_head(is_old, offset, frame, chunk);
        let payload = self.value_bytes(is_old, frame);
        let fields = self.put_fields(payload, chunk, head, out)?;
        let block = put_signed_by(is_old, frame, chunk, fields);
        let end = put_part(chunk, block, ending, ending.len());
        out.extend_from_slice(&chunk[..end])?;
        Ok(())
    }
}
