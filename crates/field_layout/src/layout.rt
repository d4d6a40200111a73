// The layout of a message.
ghost use Rattle.std.specs.Prelude.{◌≡◌, ◌<◌, length, map, None, IfOk, IfSome, IfNone, MatchResult};
ghost use Rattle.std.specs.List.{range_with_len};
ghost use Rattle.field_layout.specs.Definition.{all_fields, base_len_of, full_len_of};
ghost use Rattle.field_layout.specs.WireOrder.{place_of, wire_order, offset_of};
ghost use Rattle.field_layout.specs.CrcExtra.{crc_extra_of};
ghost use Rattle.field_layout.specs.Faults.{first_fault};
ghost use Rattle.field_layout.specs.Target.{target_of};

use crate::faults::{payload_len, repeated_place};
use crate::order::Tables;
use crate::target::{target_byte, target_offset};
use crate::{LayoutFault, MessageDef, NoMemory};
use mav_names::Name;
use std::marker::Model;

// The most bytes that a payload has.
const MAX_PAYLOAD_BYTES: u128 = 255;

/// How a message lies in its payload. Contracts see it as its definition, which determines all of it.
pub struct Layout {
    def: MessageDef,
    order: Vec<usize>,
    offsets: Vec<u8>,
    base_len: u8,
    full_len: u8,
    crc_extra: u8,
    target_system: Option<u8>,
    target_component: Option<u8>,
}

// By hand, so that whoever drops a layout proves one call.
impl Drop for Layout {
    fn drop(self) {
        let Layout {
            def: _def,
            order: _order,
            offsets: _offsets,
            base_len: _,
            full_len: _,
            crc_extra: _,
            target_system: _,
            target_component: _,
        } = self;
    }
}

impl Model for Layout {
    ghost use Rattle.field_layout.specs.Definition.{Definition};

    ghost Value = { Definition };

    ghost use Rattle.field_layout.specs.Tables.{IsLaidOut};

    ghost view = { λ l. l.def };

    ghost invariant = { IsLaidOut };
}

impl Layout {
    /// Lays a message out. The first fault is returned: no base field, a repeated name, more than 255
    /// bytes, and only then want of memory.
    pub fn of(def: MessageDef) -> Result<Layout, LayoutFault>
        ensures fault { IfSome (first_fault def) (λ fault. result ≡ Err fault) }
        ensures laid_out { IfNone (first_fault def)
            (MatchResult result (λ layout. layout ≡ def) (λ fault. fault ≡ LayoutFault.NoMemory)) }
    {
        if def.base_count() == 0 {
            return Err(LayoutFault::NoFields);
        }
        if let Some(place) = repeated_place(&def) {
            let name = def.into_name(place);
            return Err(LayoutFault::TwiceNamed { name });
        }
        let len = payload_len(&def);
        if len > MAX_PAYLOAD_BYTES {
            return Err(LayoutFault::TooLong { len });
        }
        Ok(Layout::laid_out(def, len as u8)?)
    }

    // The layout of a definition without fault.
    fn laid_out(def: MessageDef, full_len: u8) -> Result<Layout, NoMemory>
        requires faultless { first_fault def ≡ None }
        requires len { full_len ≡ full_len_of def }
        ensures { IfOk result (λ layout. layout ≡ def) }
    {
        let tables = Tables::of(&def)?;
        Ok(Layout::of_tables(def, full_len, tables))
    }

    fn of_tables(def: MessageDef, full_len: u8, tables: Tables) -> Layout
        requires faultless { first_fault def ≡ None }
        requires len { full_len ≡ full_len_of def }
        requires order { tables.order.items ≡ map place_of (wire_order def) }
        requires offsets { tables.offsets.items
            ≡ map (offset_of def) (range_with_len 0 (length (all_fields def))) }
        requires crc_extra { tables.crc_extra ≡ crc_extra_of def }
        ensures { result ≡ def }
    {
        let base_len = def.base_len() as u8;
        let target_system = target_offset(&def, &tables.offsets, b"target_system");
        let target_component = target_offset(&def, &tables.offsets, b"target_component");
        Layout {
            def,
            order: tables.order,
            offsets: tables.offsets,
            base_len,
            full_len,
            crc_extra: tables.crc_extra,
            target_system,
            target_component,
        }
    }

    /// The byte that ends the check of the message's packets (MAVLink guide, Packet Serialization: CRC_EXTRA
    /// calculation).
    pub fn crc_extra(&self) -> u8
        ensures { result ≡ crc_extra_of self.now }
    {
        self.crc_extra
    }

    /// The bytes of the base fields.
    pub fn base_len(&self) -> u8
        ensures { result ≡ base_len_of self.now }
    {
        self.base_len
    }

    /// The bytes of all fields, extensions included.
    pub fn full_len(&self) -> u8
        ensures { result ≡ full_len_of self.now }
    {
        self.full_len
    }

    /// The offset of a field, in definition order, in the payload.
    pub fn offset(&self, field: usize) -> u8
        requires { field < length (all_fields self.now) }
        ensures { result ≡ offset_of self.now field }
    {
        let offsets = self.offsets.as_slice();
        offsets[field]
    }

    /// The indices of the fields in wire order.
    pub fn order(&self) -> &[usize]
        ensures { result.now ≡ map place_of (wire_order self.now) }
    {
        &self.order
    }

    /// The definition that was laid out.
    pub fn def(&self) -> &MessageDef
        ensures same { result.now ≡ self.now }
        ensures faultless { first_fault self.now ≡ None }
    {
        &self.def
    }

    /// The node that a message with this payload is for: its fields `target_system` and `target_component`, each 0
    /// if it is absent (MAVLink guide, Routing).
    pub fn target(&self, payload: &[u8]) -> Name
        ensures { result ≡ target_of self.now payload.now }
    {
        Name {
            sys: target_byte(self.target_system, payload),
            comp: target_byte(self.target_component, payload),
        }
    }
}
