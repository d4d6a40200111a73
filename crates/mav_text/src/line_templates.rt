// The lines of frames of a dialect's messages.
ghost use Rattle.std.specs.Prelude.{◌≡◌, ◌≤◌, ◌<◌, ◌++◌, ℕ, None, length, slice_index_or, take, vec_len, option_map};
ghost use Rattle.std.specs.Prelude.{true, false, Some, OnOk, OnErr, IfOk, IfSome};
ghost use Rattle.mav_profile.specs.Messages.{definition_with};
ghost use Rattle.mav_frame.specs.Looks.{id_at, is_old_at, frame_size_at, header_size, packet_at};
ghost use Rattle.mav_text.specs.TemplateText.{HasIndices, line_of, line_template_of};

use crate::NoMemory;
use crate::chunk::Chunk;
use crate::fields::put_fields;
use crate::line_template::{LineTemplate, put_offset};
use crate::words::{read_byte, read_two};
use dialect::Dialect;
use field_layout::Layout;
use mav_frame::{OLD_STX, frame_at};
use std::alloc::Global;
use std::marker::Model;

// How many ids have an entry of their own.
const LOW_IDS: usize = 65_536;

/// A dialect whose frames are written fast, which contracts see as the list of its definitions.
pub struct LineTemplates {
    dialect: Dialect,
    line_templates: Vec<LineTemplate>,
    /// The index of an id's template. If none stands, the message is unknown or is written by its layout.
    low: Vec<Option<u16>>,
}

// By hand, so that whoever drops them proves one call.
impl Drop for LineTemplates {
    fn drop(self) {
        let LineTemplates {
            dialect: _dialect,
            line_templates: _line_templates,
            low: _low,
        } = self;
    }
}

impl Model for LineTemplates {
    ghost use Rattle.std.specs.Prelude.{◌≡◌, List, length};
    ghost use Rattle.field_layout.specs.Definition.{Definition};
    ghost use Rattle.mav_text.specs.TemplateText.{HasIndices};

    ghost Value = { List Definition };

    ghost view = { λ r. r.dialect };

    ghost invariant = { λ r. (length r.low.items ≡ 65536) × HasIndices r.dialect r.line_templates.items r.low.items };
}

// So many entries, of which none has an index.
fn no_indices(alloc: Global, count: usize) -> Result<Vec<Option<u16>>, NoMemory>
    ensures len { IfOk result (λ low. vec_len low ≡ count) }
    ensures none { IfOk result (λ low. (id : ℕ) → id < vec_len low → slice_index_or low.items id None ≡ None) }
{
    let low = vec![in alloc; None; count]?;
    Ok(low)
}

// Adds the template of an id's message, unless its id is large, its names are long or there are many templates.
fn add_template(
    alloc: Global,
    dialect: &Dialect,
    id: u32,
    line_templates: &mut Vec<LineTemplate>,
    low: &mut Vec<Option<u16>>,
) -> Result<(), NoMemory>
    requires len { length low.old.items ≡ 65536 }
    requires indices { HasIndices dialect.now line_templates.old.items low.old.items }
    ensures len { OnOk result (length low.new.items ≡ 65536) }
    ensures indices { OnOk result (HasIndices dialect.now line_templates.new.items low.new.items) }
{
    if id as usize >= LOW_IDS || line_templates.len() >= LOW_IDS {
        return Ok(());
    }
    let Some(layout) = dialect.get(id) else {
        return Ok(());
    };
    let Some(line_template) = LineTemplate::of(alloc, layout)? else {
        return Ok(());
    };
    let index = line_templates.len() as u16;
    line_templates.push(line_template)?;
    low[id as usize] = Some(index);
    Ok(())
}

// Adds the templates of a dialect's messages.
fn add_templates(
    alloc: Global,
    dialect: &Dialect,
    line_templates: &mut Vec<LineTemplate>,
    low: &mut Vec<Option<u16>>,
) -> Result<(), NoMemory>
    requires len { length low.old.items ≡ 65536 }
    requires indices { HasIndices dialect.now line_templates.old.items low.old.items }
    ensures len { OnOk result (length low.new.items ≡ 65536) }
    ensures indices { OnOk result (HasIndices dialect.now line_templates.new.items low.new.items) }
{
    for index in 0..dialect.len() {
        let Some(layout) = dialect.at(index) else {
            return Ok(());
        };
        add_template(alloc, dialect, layout.def().id, line_templates, low)?;
    }
    Ok(())
}

// The templates of a dialect, and the indices of the low ids among them.
fn line_templates_of(
    alloc: Global,
    dialect: &Dialect,
) -> Result<(Vec<LineTemplate>, Vec<Option<u16>>), NoMemory>
    ensures len { IfOk result (λ made. length made.1.items ≡ 65536) }
    ensures indices { IfOk result (λ made. HasIndices dialect.now made.0.items made.1.items) }
{
    let mut low = no_indices(alloc, LOW_IDS)?;
    let mut line_templates = Vec::new(alloc);
    add_templates(alloc, dialect, &mut line_templates, &mut low)?;
    Ok((line_templates, low))
}

// Whether a frame is one of MAVLink 1, if such are read.
#[inline(always)]
fn is_old_frame(old: bool, frame: &[u8]) -> bool
    requires { 0 < length frame.now }
    ensures same { result ≡ is_old_at old frame.now }
    ensures version { is_old_at result frame.now ≡ result }
{
    old && frame[0] == OLD_STX
}

// The id of a frame.
#[inline(always)]
fn read_id(is_old: bool, frame: &[u8]) -> u32
    requires { header_size is_old ≤ length frame.now }
    ensures { result ≡ id_at is_old frame.now }
{
    if is_old {
        return u32::from(read_byte(frame, 5));
    }
    (read_two(frame, 7) + 65_536 * u64::from(read_byte(frame, 9))) as u32
}

// Appends the line of a frame by its message's layout, or a part of it.
fn append_by_layout(
    layout: &Layout,
    is_old: bool,
    offset: u64,
    frame: &[u8],
    ending: &[u8],
    chunk: &mut [u8; 2048],
    out: &mut Vec<u8>,
) -> Result<(), NoMemory>
    requires version { is_old_at is_old frame.now ≡ is_old }
    requires whole { frame_size_at is_old frame.now ≤ length frame.now }
    ensures ok { OnOk result (out.new.items ≡ out.old.items
        ++ line_of (Some layout.now) offset (packet_at is_old frame.now) ending.now) }
    ensures err { OnErr result (take (vec_len out.old) out.new.items ≡ out.old.items) }
{
    let end = put_offset(offset, chunk);
    out.extend_from_slice(&chunk[..end])?;
    put_fields(layout, &frame_at(is_old, frame), out)?;
    out.extend_from_slice(ending)?;
    Ok(())
}

impl LineTemplates {
    pub fn new(alloc: Global, dialect: Dialect) -> Result<LineTemplates, NoMemory>
        ensures { IfOk result (λ line_templates. line_templates ≡ dialect) }
    {
        match line_templates_of(alloc, &dialect) {
            Ok((line_templates, low)) => Ok(LineTemplates {
                dialect,
                line_templates,
                low,
            }),
            Err(fault) => Err(fault),
        }
    }

    /// The dialect.
    pub fn dialect(&self) -> &Dialect
        ensures { result.now ≡ self.now }
    {
        &self.dialect
    }

    // The template of an id, if one is kept.
    #[inline(always)]
    fn line_template(&self, id: u32) -> Option<&LineTemplate>
        ensures { IfSome result (λ line_template. option_map line_template_of (definition_with id self.now)
            ≡ Some line_template.now) }
    {
        if id as usize >= LOW_IDS {
            return None;
        }
        let index = self.low[id as usize]?;
        Some(&self.line_templates[usize::from(index)])
    }

    // Appends the line of the frame, or a part of it.
    #[inline(always)]
    fn append_line(
        &self,
        is_old: bool,
        offset: u64,
        frame: &[u8],
        ending: &[u8],
        chunk: &mut [u8; 2048],
        out: &mut Vec<u8>,
    ) -> Result<(), NoMemory>
        requires version { is_old_at is_old frame.now ≡ is_old }
        requires whole { frame_size_at is_old frame.now ≤ length frame.now }
        requires short { length ending.now ≤ 16 }
        ensures ok { OnOk result (out.new.items ≡ out.old.items
            ++ line_of (definition_with (id_at is_old frame.now) self.now) offset
            (packet_at is_old frame.now) ending.now) }
        ensures err { OnErr result (take (vec_len out.old) out.new.items ≡ out.old.items) }
    {
        let id = read_id(is_old, frame);
        if let Some(line_template) = self.line_template(id) {
            return line_template.append_line(is_old, offset, frame, ending, chunk, out);
        }
        match self.dialect.get(id) {
            Some(layout) => append_by_layout(layout, is_old, offset, frame, ending, chunk, out),
            None => Ok(()),
        }
    }

    // The same for a frame of MAVLink 1. It is a call of its own, so that the code for MAVLink 2 asks for the version
    // once.
    #[inline(never)]
    fn append_old_line(
        &self,
        offset: u64,
        frame: &[u8],
        ending: &[u8],
        chunk: &mut [u8; 2048],
        out: &mut Vec<u8>,
    ) -> Result<(), NoMemory>
        requires version { is_old_at true frame.now ≡ true }
        requires whole { frame_size_at true frame.now ≤ length frame.now }
        requires short { length ending.now ≤ 16 }
        ensures ok { OnOk result (out.new.items ≡ out.old.items
            ++ line_of (definition_with (id_at true frame.now) self.now) offset
            (packet_at true frame.now) ending.now) }
        ensures err { OnErr result (take (vec_len out.old) out.new.items ≡ out.old.items) }
    {
        self.append_line(true, offset, frame, ending, chunk, out)
    }

    // Appends the line of a frame of either version, or a part of it.
    #[inline(always)]
    fn append_either(
        &self,
        old: bool,
        offset: u64,
        frame: &[u8],
        ending: &[u8],
        chunk: &mut [u8; 2048],
        out: &mut Vec<u8>,
    ) -> Result<(), NoMemory>
        requires whole { frame_size_at (is_old_at old frame.now) frame.now ≤ length frame.now }
        requires short { length ending.now ≤ 16 }
        ensures ok { OnOk result (out.new.items ≡ out.old.items
            ++ line_of (definition_with (id_at (is_old_at old frame.now) frame.now) self.now) offset
            (packet_at (is_old_at old frame.now) frame.now) ending.now) }
        ensures err { OnErr result (take (vec_len out.old) out.new.items ≡ out.old.items) }
    {
        if is_old_frame(old, frame) {
            self.append_old_line(offset, frame, ending, chunk, out)
        } else {
            self.append_line(false, offset, frame, ending, chunk, out)
        }
    }

    /// Appends the line of the frame that stands at the start of some bytes: its offset in the stream, its text from
    /// its message's name on, ` signed LINK STAMP` if it is signed, and an ending. Nothing for an unknown message.
    /// `old` says that frames of MAVLink 1 are read.
    pub fn put_line(
        &self,
        old: bool,
        offset: u64,
        frame: &[u8],
        ending: &[u8],
        chunk: &mut Chunk,
        out: &mut Vec<u8>,
    ) -> Result<(), NoMemory>
        requires whole { frame_size_at (is_old_at old frame.now) frame.now ≤ length frame.now }
        requires short { length ending.now ≤ 16 }
        ensures ok { OnOk result (out.new.items ≡ out.old.items
            ++ line_of (definition_with (id_at (is_old_at old frame.now) frame.now) self.now) offset
            (packet_at (is_old_at old frame.now) frame.now) ending.now) }
        ensures err { OnErr result (out.new.items ≡ out.old.items) }
    {
        let before = out.len();
        let put = self.append_either(old, offset, frame, ending, &mut chunk.bytes, out);
        if put.is_err() {
            out.truncate(before);
        }
        put
    }
}
