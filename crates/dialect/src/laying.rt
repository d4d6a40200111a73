// Laying a message out, in time that is linear in the number of its fields.
ghost use Rattle.std.specs.Prelude.{◌≡◌, ◌≢◌, ◌<◌, length, Some, None, IfOk, IfErr, IfSome};
ghost use Rattle.field_layout.specs.Definition.{all_fields, full_len_of};
ghost use Rattle.field_layout.specs.Faults.{names_of, first_repeat, first_fault};
ghost use Rattle.dialect.specs.Grammar.{layout_fault};

use crate::name_set::NameSet;
use crate::{DialectFault, NoMemory};
use field_layout::{Label, Layout, LayoutFault, MessageDef};
use std::alloc::Global;

// The most fields that a payload of 255 bytes holds. `Layout::of` compares each pair of names.
const MAX_FIELDS: usize = 255;

// The first index whose name an earlier index has.
fn repeated_index(alloc: Global, def: &MessageDef) -> Result<Option<usize>, NoMemory>
    ensures first { IfOk result (λ index. index ≡ first_repeat (names_of def.now)) }
    ensures within { IfOk result (λ index. IfSome index (λ index. index < length (all_fields def.now))) }
{
    let mut names = NameSet::new(alloc);
    for index in 0..def.field_count() {
        let name = def.field(index).name.bytes();
        if names.has(name) {
            return Ok(Some(index));
        }
        names.add(name)?;
    }
    Ok(None)
}

// The bytes of all fields together.
fn payload_len(def: &MessageDef) -> u128
    ensures { result ≡ full_len_of def.now }
{
    let mut len: u128 = 0;
    for index in 0..def.field_count() {
        len += def.field(index).size() as u128;
    }
    len
}

fn copied(alloc: Global, name: &Label) -> Result<Label, NoMemory>
    ensures { IfOk result (λ copied. copied ≡ name.now) }
{
    Ok(Label::new(name.bytes().to_vec(alloc)?))
}

// The fault of a message with more fields than a payload holds.
fn fault_of_many(alloc: Global, def: &MessageDef) -> Result<LayoutFault, NoMemory>
    requires { 255 < length (all_fields def.now) }
    ensures { IfOk result (λ fault. first_fault def.now ≡ Some fault) }
{
    if def.base_count() == 0 {
        return Ok(LayoutFault::NoFields);
    }
    if let Some(index) = repeated_index(alloc, def)? {
        let name = copied(alloc, &def.field(index).name)?;
        return Ok(LayoutFault::TwiceNamed { name });
    }
    let len = payload_len(def);
    Ok(LayoutFault::TooLong { len })
}

/// The layout of the message at an index.
pub(crate) fn laid_out(alloc: Global, def: MessageDef, at: u32) -> Result<Layout, DialectFault>
    ensures faultless { IfOk result (λ layout. first_fault def ≡ None) }
    ensures same { IfOk result (λ layout. layout ≡ def) }
    ensures fault { IfErr result
        (λ fault. fault ≢ DialectFault.NoMemory → layout_fault at (first_fault def) ≡ Some fault) }
{
    if def.field_count() > MAX_FIELDS {
        let fault = fault_of_many(alloc, &def)?;
        return Err(DialectFault::Layout { at, fault });
    }
    match Layout::of(def) {
        Ok(layout) => Ok(layout),
        Err(LayoutFault::NoMemory) => Err(DialectFault::NoMemory),
        Err(fault) => Err(DialectFault::Layout { at, fault }),
    }
}
