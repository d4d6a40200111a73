// The order of fields on the wire, and the offsets and the CRC_EXTRA that follow from it.
ghost use Rattle.std.specs.Prelude.{◌≡◌, ◌≤◌, ◌++◌, [], length, map, OnOk, IfOk};
ghost use Rattle.std.specs.List.{enumerate_from, range_with_len};
ghost use Rattle.x25_check.specs.Check.{check_from};
ghost use Rattle.field_layout.specs.Definition.{all_fields, full_len_of};
ghost use Rattle.field_layout.specs.WireOrder.{place_of, of_size, base_order, wire_order, offset_of};
ghost use Rattle.field_layout.specs.CrcExtra.{spaced, field_text, crc_extra_of};

use crate::{Field, MessageDef, NoMemory};
use x25_check::X25;

// Appends the indices of the fields whose elements have that size.
fn push_places(order: &mut Vec<usize>, fields: &[Field], size: usize) -> Result<(), NoMemory>
    ensures { OnOk result
        (order.new.items ≡ order.old.items ++ map place_of (of_size size (enumerate_from 0 fields.now))) }
{
    for (place, field) in fields.iter().enumerate() {
        if field.ty.size() == size {
            order.push(place)?;
        }
    }
    Ok(())
}

// Appends the indices of the base fields in wire order.
fn push_base(order: &mut Vec<usize>, def: &MessageDef) -> Result<(), NoMemory>
    requires { order.old.items ≡ [] }
    ensures { OnOk result (order.new.items ≡ map place_of (base_order def.now)) }
{
    push_places(order, &def.fields, 8)?;
    push_places(order, &def.fields, 4)?;
    push_places(order, &def.fields, 2)?;
    push_places(order, &def.fields, 1)
}

// Appends the indices of the extensions to those of the base fields.
fn push_extensions(order: &mut Vec<usize>, def: &MessageDef) -> Result<(), NoMemory>
    requires { order.old.items ≡ map place_of (base_order def.now) }
    ensures { OnOk result (order.new.items ≡ map place_of (wire_order def.now)) }
{
    for place in def.base_count()..def.field_count() {
        order.push(place)?;
    }
    Ok(())
}

// Appends the indices of the fields in wire order, and returns the CRC_EXTRA.
fn push_wire_order(order: &mut Vec<usize>, def: &MessageDef) -> Result<u8, NoMemory>
    requires { order.old.items ≡ [] }
    ensures order { OnOk result (order.new.items ≡ map place_of (wire_order def.now)) }
    ensures extra { IfOk result (λ extra. extra ≡ crc_extra_of def.now) }
{
    push_base(order, def)?;
    let crc_extra = crc_extra(def, order);
    push_extensions(order, def)?;
    Ok(crc_extra)
}

// The sizes of the fields before an index in wire order.
fn offset_in(def: &MessageDef, order: &[usize], place: usize) -> usize
    requires in_order { order.now ≡ map place_of (wire_order def.now) }
    requires short { full_len_of def.now ≤ 255 }
    ensures offset { result ≡ offset_of def.now place }
    ensures bound { result ≤ 255 }
{
    let mut offset = 0usize;
    for before in order {
        if *before == place {
            return offset;
        }
        offset += def.field(*before).size();
    }
    offset
}

// The offset of each field, in definition order.
fn offset_table(def: &MessageDef, order: &[usize]) -> Result<Vec<u8>, NoMemory>
    requires in_order { order.now ≡ map place_of (wire_order def.now) }
    requires short { full_len_of def.now ≤ 255 }
    ensures { IfOk result
        (λ table. table.items ≡ map (offset_of def.now) (range_with_len 0 (length (all_fields def.now)))) }
{
    let mut table = Vec::new(*def.fields.allocator());
    for place in 0..def.field_count() {
        table.push(offset_in(def, order, place) as u8)?;
    }
    Ok(table)
}

// Pushes a name and the space after it.
fn push_spaced(check: &mut X25, name: &[u8])
    ensures { check.new ≡ check_from check.old (spaced name.now) }
{
    check.push_all(name);
    check.push(b' ');
}

// Pushes what a base field adds to the text of CRC_EXTRA.
fn push_field(check: &mut X25, field: &Field)
    ensures { check.new ≡ check_from check.old (field_text field.now) }
{
    push_spaced(check, field.ty.name());
    push_spaced(check, field.name.bytes());
    if field.len != 0 {
        check.push(field.len);
    }
}

// The CRC_EXTRA of a message, from the indices of its base fields in wire order.
fn crc_extra(def: &MessageDef, base: &[usize]) -> u8
    requires { base.now ≡ map place_of (base_order def.now) }
    ensures { result ≡ crc_extra_of def.now }
{
    let mut check = X25::new();
    push_spaced(&mut check, def.name.bytes());
    for place in base {
        push_field(&mut check, def.field(*place));
    }
    let value = check.value();
    (value % 256) as u8 ^ (value / 256) as u8
}

/// What a layout keeps of the order of its fields.
#[derive(Drop)]
pub(crate) struct Tables {
    pub(crate) order: Vec<usize>,
    pub(crate) offsets: Vec<u8>,
    pub(crate) crc_extra: u8,
}

impl Tables {
    pub(crate) fn of(def: &MessageDef) -> Result<Tables, NoMemory>
        requires { full_len_of def.now ≤ 255 }
        ensures order { IfOk result (λ t. t.order.items ≡ map place_of (wire_order def.now)) }
        ensures offsets { IfOk result
            (λ t. t.offsets.items ≡ map (offset_of def.now) (range_with_len 0 (length (all_fields def.now)))) }
        ensures crc_extra { IfOk result (λ t. t.crc_extra ≡ crc_extra_of def.now) }
    {
        let mut order = Vec::new(*def.fields.allocator());
        let crc_extra = push_wire_order(&mut order, def)?;
        let offsets = offset_table(def, &order)?;
        Ok(Tables {
            order,
            offsets,
            crc_extra,
        })
    }
}
