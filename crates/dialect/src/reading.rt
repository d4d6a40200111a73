// Reading definitions.
ghost use Rattle.std.specs.Prelude.{◌≡◌, ◌≢◌, ◌≤◌, ◌+◌, [], false, map, length, None, Some, OnOk, IfOk, IfErr};
ghost use Rattle.serde_json.specs.View.{view};
ghost use Rattle.dialect.specs.Shape.{message_in};
ghost use Rattle.dialect.specs.Grammar as spec;

use crate::DialectFault;
use crate::known::Known;
use crate::laying::laid_out;
use crate::layouts::Layouts;
use crate::message::{definition_of, has_names, has_types};
use crate::shape::{SpelledMessage, message_in, messages_in};
use field_layout::Layout;
use serde_json::{Category, Value};
use std::alloc::Global;

// The most messages.
const MAX_MESSAGES: usize = 512;

// The value that a text is.
fn json(alloc: Global, bytes: &[u8]) -> Result<Value, DialectFault>
    ensures read { IfOk result (λ top. spec.json_of bytes.now ≡ Some (view top)) }
    ensures fault { IfErr result (λ fault. fault ≢ DialectFault.NoMemory → fault ≡ DialectFault.NotJson) }
    ensures refused { IfErr result (λ fault. fault ≢ DialectFault.NoMemory → spec.json_of bytes.now ≡ None) }
{
    match Value::from_slice(alloc, bytes) {
        Ok(top) => Ok(top),
        Err(refused) => {
            if refused.classify() == Category::Memory {
                return Err(DialectFault::NoMemory);
            }
            Err(DialectFault::NotJson)
        }
    }
}

// The first fault of a message's types, names, id and name.
fn text_fault(known: &Known, message: &SpelledMessage) -> Option<DialectFault>
    requires { length known.now ≤ 512 }
    ensures { result ≡ spec.text_fault known.now message.now }
{
    let at = known.len() as u32;
    if !has_types(message) {
        Some(DialectFault::BadType { at })
    } else if !has_names(message) {
        Some(DialectFault::BadName { at })
    } else if known.has_id(message.id) {
        Some(DialectFault::TwiceId { at })
    } else if known.has_name(message.name) {
        Some(DialectFault::TwiceName { at })
    } else {
        None
    }
}

// The layout of one more message.
fn read_message(alloc: Global, known: &Known, value: &Value) -> Result<Layout, DialectFault>
    requires { length known.now ≤ 512 }
    ensures id { IfOk result (λ layout. spec.has_id known.now layout.id ≡ false) }
    ensures name { IfOk result (λ layout. spec.has_name known.now layout.name ≡ false) }
    ensures read { IfOk result
        (λ layout. spec.definition_behind known.now (message_in (view value.now)) ≡ Ok layout) }
    ensures fault { IfErr result (λ fault. fault ≢ DialectFault.NoMemory
        → spec.definition_behind known.now (message_in (view value.now)) ≡ Err fault) }
{
    let at = known.len() as u32;
    let Some(message) = message_in(alloc, value)? else {
        return Err(DialectFault::Shape { at: Some(at) });
    };
    if let Some(fault) = text_fault(known, &message) {
        return Err(fault);
    }
    let def = definition_of(alloc, &message)?;
    laid_out(alloc, def, at)
}

// Reads messages after those that are known.
fn read_each(alloc: Global, values: &[Value], known: &mut Known) -> Result<(), DialectFault>
    requires { length known.old + length values.now ≤ 512 }
    ensures read { OnOk result
        (spec.definitions_behind known.old (map view values.now) ≡ Ok known.new) }
    ensures fault { IfErr result (λ fault. fault ≢ DialectFault.NoMemory
        → spec.definitions_behind known.old (map view values.now) ≡ Err fault) }
{
    for value in values {
        let layout = read_message(alloc, known, value)?;
        known.add(layout)?;
    }
    Ok(())
}

// The layouts of messages.
fn read_messages(alloc: Global, values: &[Value]) -> Result<Layouts, DialectFault>
    requires { length values.now ≤ 512 }
    ensures read { IfOk result (λ layouts. spec.definitions_behind [] (map view values.now) ≡ Ok layouts) }
    ensures fault { IfErr result (λ fault. fault ≢ DialectFault.NoMemory
        → spec.definitions_behind [] (map view values.now) ≡ Err fault) }
{
    let mut known = Known::new(alloc);
    read_each(alloc, values, &mut known)?;
    Ok(known.into_layouts())
}

/// The layouts of definitions.
pub(crate) fn read_layouts(alloc: Global, bytes: &[u8]) -> Result<Layouts, DialectFault>
    ensures read { IfOk result (λ layouts. spec.definitions_of bytes.now ≡ Ok layouts) }
    ensures fault { IfErr result
        (λ fault. fault ≢ DialectFault.NoMemory → spec.definitions_of bytes.now ≡ Err fault) }
{
    let top = json(alloc, bytes)?;
    let Some(messages) = messages_in(&top) else {
        return Err(DialectFault::Shape { at: None });
    };
    if messages.len() > MAX_MESSAGES {
        return Err(DialectFault::TooMany);
    }
    read_messages(alloc, messages)
}
