// The node that a message is for.
ghost use Rattle.std.specs.Prelude.{◌≡◌, length, map};
ghost use Rattle.std.specs.List.{range_with_len};
ghost use Rattle.field_layout.specs.Definition.{all_fields};
ghost use Rattle.field_layout.specs.WireOrder.{offset_of};
ghost use Rattle.field_layout.specs.Target as target;

use crate::unpacking::byte_at;
use crate::{Field, MessageDef, Ty};

// Whether a field is a single `uint8_t` of that name.
fn is_target(field: &Field, name: &[u8]) -> bool
    ensures { result ≡ target.is_target name.now field.now }
{
    matches!(field.ty, Ty::U8) && field.len == 0 && field.name.bytes() == name
}

/// The offset of the target field of that name, if there is one.
pub(crate) fn target_offset(def: &MessageDef, offsets: &[u8], name: &[u8]) -> Option<u8>
    requires { offsets.now ≡ map (offset_of def.now) (range_with_len 0 (length (all_fields def.now))) }
    ensures { result ≡ target.target_offset name.now def.now }
{
    for place in 0..def.field_count() {
        if is_target(def.field(place), name) {
            return Some(offsets[place]);
        }
    }
    None
}

/// The byte of a payload at a target field, 0 if there is none or the payload ends before it.
pub(crate) fn target_byte(offset: Option<u8>, payload: &[u8]) -> u8
    ensures { result ≡ target.target_byte offset payload.now }
{
    match offset {
        Some(at) => byte_at(payload, at as usize),
        None => 0,
    }
}
