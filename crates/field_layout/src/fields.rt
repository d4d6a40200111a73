// Definitions of messages.
ghost use Rattle.std.specs.Prelude.{◌≡◌, ◌≤◌, ◌*◌, length, sum_by};
ghost use Rattle.field_layout.specs.Definition.{size_of};

use crate::{Label, Ty};
use std::marker::Model;

/// A field of a message: `len` is the number of its elements, and 0 for a single value.
#[derive(Drop)]
pub struct Field {
    pub ty: Ty,
    pub len: u8,
    pub name: Label,
}

/// A message as its definition gives it, with fields in definition order. Contracts see it as its id, its name and
/// two lists of fields (MAVLink guide, XML Schema: messages).
#[derive(Drop)]
pub struct MessageDef {
    pub id: u32,
    pub name: Label,
    pub fields: Vec<Field>,
    pub extensions: Vec<Field>,
}

impl Model for MessageDef {
    ghost use Rattle.field_layout.specs.Definition.{Definition};

    ghost Value = { Definition };

    ghost view = { λ d. record {
      id = d.id;
      name = d.name;
      fields = d.fields.items;
      extensions = d.extensions.items;
    } };
}

impl Field {
    ghost use Rattle.std.specs.Prelude.{◌≡◌, ◌≤◌};
    ghost use Rattle.field_layout.specs.Definition.{element_count, size_of};

    /// The number of its elements.
    pub fn count(&self) -> usize
        ensures { result ≡ element_count self.now }
    {
        if self.len == 0 { 1 } else { self.len as usize }
    }

    /// The bytes of all its elements on the wire.
    pub fn size(&self) -> usize
        ensures size { result ≡ size_of self.now }
        ensures bound { result ≤ 2040 }
    {
        self.ty.size() * self.count()
    }
}

/// The bytes of fields together.
pub(crate) fn byte_len(fields: &[Field]) -> u128
    ensures len { result ≡ sum_by size_of fields.now }
    ensures bound { result ≤ 2040 * length fields.now }
{
    let mut len: u128 = 0;
    for field in fields {
        len += field.size() as u128;
    }
    len
}

impl MessageDef {
    ghost use Rattle.std.specs.Prelude.{◌≡◌, ◌<◌, ◌^◌, length, slice_get, Some};
    ghost use Rattle.field_layout.specs.Definition.{all_fields, base_len_of};
    ghost use Rattle.field_layout.specs.Faults.{names_of, name_at};

    /// How many base fields it has.
    pub fn base_count(&self) -> usize
        ensures { result ≡ length self.now.fields }
    {
        self.fields.len()
    }

    /// How many fields it has, extensions included.
    pub fn field_count(&self) -> usize
        ensures { result ≡ length (all_fields self.now) }
    {
        self.fields.len() + self.extensions.len()
    }

    /// The field at an index in definition order, extensions last.
    pub fn field(&self, place: usize) -> &Field
        requires { place < length (all_fields self.now) }
        ensures { slice_get (all_fields self.now) place ≡ Some result.now }
    {
        let base = self.fields.len();
        if place < base {
            &self.fields[place]
        } else {
            &self.extensions[place - base]
        }
    }

    /// The bytes of the base fields together.
    pub(crate) fn base_len(&self) -> u128
        ensures len { result ≡ base_len_of self.now }
        ensures bound { result < 2 ^ 75 }
    {
        byte_len(&self.fields)
    }

    /// The name of the field at an index, moved out.
    pub(crate) fn into_name(self, place: usize) -> Label
        requires { place < length (all_fields self) }
        ensures { result ≡ name_at (names_of self) place }
    {
        let MessageDef {
            id: _,
            name: _,
            mut fields,
            mut extensions,
        } = self;
        let base = fields.len();
        if place < base {
            fields.swap_remove(place).name
        } else {
            extensions.swap_remove(place - base).name
        }
    }
}
