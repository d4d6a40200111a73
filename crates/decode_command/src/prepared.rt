// The dialect and the key, prepared for the lines of frames.
ghost use Rattle.std.specs.Prelude.{◌≡◌, ◌∷◌, ◌++◌, ◌≤◌, [], length, true, OnOk, OnErr, IfOk};
ghost use Rattle.mav_profile.specs.Messages.{definition_with};
ghost use Rattle.mav_frame.specs.Looks.{id_at, is_old_at, frame_size_at, packet_at};
ghost use Rattle.decode_command.specs.DecodeText.{frame_line, verdict_text};

use crate::context::DecodeContext;
use mav_frame::RawFrame;
use mav_ports::NoMemory;
use mav_sign::{Key, verifies_raw};
use mav_text::{Chunk, LineTemplates};
use std::alloc::Global;
use std::marker::Model;

/// Contracts see it as what it was made from.
#[derive(Drop)]
pub(crate) struct Prepared {
    templates: LineTemplates,
    key: Option<Key>,
}

impl Model for Prepared {
    ghost use Rattle.decode_command.specs.declared.context.DecodeContext.{DecodeContext};

    ghost Value = { DecodeContext };

    ghost view = { λ p. record { dialect = p.templates; key = p.key } };
}

// What comes after a frame's text: whether the signature of a signed frame is that of the key, and the line end.
#[inline]
fn ending(key: &Option<Key>, frame: &RawFrame<'_>) -> &'static [u8]
    ensures text { result.now ≡ verdict_text key.now frame.now frame.now.block ++ 10 ∷ [] }
    ensures short { length result.now ≤ 16 }
{
    let Some(key) = key else {
        return b"\n";
    };
    if !frame.has_block() {
        return b"\n";
    }
    if verifies_raw(key, frame) {
        b" good\n"
    } else {
        b" bad\n"
    }
}

impl Prepared {
    pub(crate) fn new(alloc: Global, known: DecodeContext) -> Result<Prepared, NoMemory>
        ensures { IfOk result (λ prepared. prepared ≡ known) }
    {
        Ok(Prepared {
            templates: LineTemplates::new(alloc, known.dialect)?,
            key: known.key,
        })
    }

    /// Appends the line of a frame of either version, which stands at the start of some bytes.
    #[inline]
    pub(crate) fn put_frame(
        &self,
        offset: u64,
        frame: &RawFrame<'_>,
        bytes: &[u8],
        chunk: &mut Chunk,
        text: &mut Vec<u8>,
    ) -> Result<(), NoMemory>
        requires whole { frame_size_at (is_old_at true bytes.now) bytes.now ≤ length bytes.now }
        requires same { frame.now ≡ packet_at (is_old_at true bytes.now) bytes.now }
        ensures ok { OnOk result (text.new.items ≡ text.old.items
            ++ frame_line (definition_with (id_at (is_old_at true bytes.now) bytes.now) self.now.dialect) self.now.key
            offset (packet_at (is_old_at true bytes.now) bytes.now)) }
        ensures err { OnErr result (text.new.items ≡ text.old.items) }
    {
        let ending = ending(&self.key, frame);
        self.templates
            .put_line(true, offset, bytes, ending, chunk, text)
    }
}
