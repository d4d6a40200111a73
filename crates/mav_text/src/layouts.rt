// The lines of a layout.
ghost use Rattle.std.specs.Prelude.{◌≡◌, ◌++◌, slice_get, Some, OnOk, OnErr};
ghost use Rattle.field_layout.specs.Definition.{all_fields};
ghost use Rattle.mav_text.specs.LayoutText as spec;

use crate::NoMemory;
use crate::pieces::{put_decimal, put_text};
use dialect::type_word;
use field_layout::{Field, Layout};

// Appends a field's type, with `[N]` after an array's.
fn put_type(out: &mut Vec<u8>, field: &Field) -> Result<(), NoMemory>
    ensures { OnOk result (out.new.items ≡ out.old.items ++ spec.type_text field.now) }
{
    out.extend_from_slice(type_word(field.ty))?;
    if field.len == 0 {
        return Ok(());
    }
    put_text(out, "[")?;
    put_decimal(u64::from(field.len), out)?;
    put_text(out, "]")
}

// Appends the line of the field at an index in definition order.
fn put_field(
    out: &mut Vec<u8>,
    layout: &Layout,
    number: usize,
    field: &Field,
) -> Result<(), NoMemory>
    requires { slice_get (all_fields layout.now) number ≡ Some field.now }
    ensures { OnOk result (out.new.items ≡ out.old.items ++ spec.field_line layout.now (number, field.now)) }
{
    put_text(out, " ")?;
    put_decimal(u64::from(layout.offset(number)), out)?;
    put_text(out, " ")?;
    put_type(out, field)?;
    put_text(out, " ")?;
    out.extend_from_slice(field.name.bytes())?;
    put_text(out, "\n")
}

// Appends the line of a message.
fn put_message(out: &mut Vec<u8>, layout: &Layout) -> Result<(), NoMemory>
    ensures { OnOk result (out.new.items ≡ out.old.items ++ spec.message_line layout.now) }
{
    let def = layout.def();
    put_decimal(u64::from(def.id), out)?;
    put_text(out, " ")?;
    out.extend_from_slice(def.name.bytes())?;
    put_text(out, " len ")?;
    put_decimal(u64::from(layout.base_len()), out)?;
    put_text(out, " full ")?;
    put_decimal(u64::from(layout.full_len()), out)?;
    put_text(out, " extra ")?;
    put_decimal(u64::from(layout.crc_extra()), out)?;
    put_text(out, "\n")
}

// Appends the lines of a message and of its fields in wire order, or some of them.
fn put_lines(out: &mut Vec<u8>, layout: &Layout) -> Result<(), NoMemory>
    ensures { OnOk result (out.new.items ≡ out.old.items ++ spec.layout_text layout.now) }
{
    put_message(out, layout)?;
    for number in layout.order() {
        put_field(out, layout, *number, layout.def().field(*number))?;
    }
    Ok(())
}

/// Appends the lines of a message: its id, name, lengths and CRC_EXTRA, then its fields in wire order with their
/// offsets and types. After want of memory `out` is as it was.
pub fn put_layout(layout: &Layout, out: &mut Vec<u8>) -> Result<(), NoMemory>
    ensures text { OnOk result (out.new.items ≡ out.old.items ++ spec.layout_text layout.now) }
    ensures unchanged { OnErr result (out.new.items ≡ out.old.items) }
{
    let mut text = Vec::new(*out.allocator());
    put_lines(&mut text, layout)?;
    out.extend_from_slice(&text)
}
