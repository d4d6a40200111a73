// Packing values into a payload.
ghost use Rattle.std.specs.Prelude.{◌≡◌, ◌-◌, ◌<◌, ◌≤◌, ◌++◌, length, replicate};
ghost use Rattle.field_layout.specs.Payload.{FitsLayout, serialised, truncated};

use crate::buffer::Buffer;
use crate::{Layout, Values};

// The bytes of each field's words, in wire order.
fn serialise(layout: &Layout, values: &Values) -> Buffer
    requires { FitsLayout layout.now values.now }
    ensures bytes { result ≡ serialised layout.now values.now }
    ensures some { 0 < length result }
    ensures short { length result ≤ 255 }
{
    let def = layout.def();
    let mut payload = Buffer::new();
    for place in layout.order() {
        let size = def.field(*place).ty.size();
        payload.push_words(size, values.field(*place));
    }
    payload
}

/// Writes the payload of values that fit the layout into `out`, with zeros after it, and returns its length without
/// the zeros at its end, which is at least 1 (MAVLink guide, Packet Serialization: Empty-Byte Payload Truncation).
pub fn pack(layout: &Layout, values: &Values, out: &mut [u8; 255]) -> u8
    requires { FitsLayout layout.now values.now }
    ensures len { result ≡ length (truncated (serialised layout.now values.now)) }
    ensures some { 0 < result }
    ensures bytes { out.new ≡ truncated (serialised layout.now values.now) ++ replicate (255 - result) 0 }
{
    let payload = serialise(layout, values);
    payload.copy_to(out);
    payload.truncated_len()
}
