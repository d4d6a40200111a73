// Messages as definitions write them.
ghost use Rattle.std.specs.Prelude.{◌≡◌, map, option_map, IfOk};
ghost use Rattle.serde_json.specs.Find.{get};
ghost use Rattle.serde_json.specs.View.{view};
ghost use Rattle.dialect.specs.Shape as spec;
ghost use Rattle.dialect.specs.Spelled.{items_of};

use crate::NoMemory;
use serde_json::Value;
use std::alloc::Global;
use std::marker::Model;

// One more than the greatest id: an id has three bytes.
const MAX_ID: u64 = 1 << 24;

/// A field's type and name as they are written.
#[derive(Drop)]
pub(crate) struct SpelledField<'a> {
    pub(crate) ty: &'a [u8],
    pub(crate) name: &'a [u8],
}

impl<'a> Model for SpelledField<'a> {
    ghost use Rattle.dialect.specs.Shape.{FieldText};

    ghost Value = { FieldText };

    ghost view = { λ f. record { ty = f.ty.now; name = f.name.now } };
}

/// A message as it is written.
#[derive(Drop)]
pub(crate) struct SpelledMessage<'a> {
    pub(crate) id: u32,
    pub(crate) name: &'a [u8],
    pub(crate) fields: Vec<SpelledField<'a>>,
    pub(crate) extensions: Vec<SpelledField<'a>>,
}

impl<'a> Model for SpelledMessage<'a> {
    ghost use Rattle.dialect.specs.Shape.{MessageText};

    ghost Value = { MessageText };

    ghost view = { λ m. record {
      id = m.id;
      name = m.name.now;
      fields = m.fields.items;
      extensions = m.extensions.items;
    } };
}

// The string at a member.
fn text_at<'a>(value: &'a Value, key: &str) -> Option<&'a [u8]>
    ensures { option_map (λ text. text.now) result ≡ spec.text_at key.now (view value.now) }
{
    match value.get(key).and_then(Value::as_str) {
        Some(text) => Some(text.as_bytes()),
        None => None,
    }
}

// The elements of an array.
fn elements_of(value: &Value) -> Option<&[Value]>
    ensures { option_map (λ values. map view values.now) result ≡ spec.elements_of (view value.now) }
{
    match value.as_array() {
        Some(values) => Some(values.as_slice()),
        None => None,
    }
}

fn id_in(value: &Value) -> Option<u32>
    ensures { result ≡ spec.id_in (view value.now) }
{
    match value.get("id").and_then(Value::as_u64) {
        Some(id) if id < MAX_ID => Some(id as u32),
        _ => None,
    }
}

fn field_in(value: &Value) -> Option<SpelledField<'_>>
    ensures { result ≡ spec.field_in (view value.now) }
{
    let ty = text_at(value, "type")?;
    let name = text_at(value, "name")?;
    Some(SpelledField { ty, name })
}

// The fields that the elements of an array are, if each is one.
fn each_field<'a>(
    alloc: Global,
    values: &'a [Value],
) -> Result<Option<Vec<SpelledField<'a>>>, NoMemory>
    ensures { IfOk result (λ fields. option_map items_of fields ≡ spec.each_field (map view values.now)) }
{
    let mut fields = Vec::new(alloc);
    for value in values {
        match field_in(value) {
            Some(field) => fields.push(field)?,
            None => return Ok(None),
        }
    }
    Ok(Some(fields))
}

// The fields in an array.
fn fields_of(alloc: Global, value: &Value) -> Result<Option<Vec<SpelledField<'_>>>, NoMemory>
    ensures { IfOk result (λ fields. option_map items_of fields ≡ spec.fields_of (view value.now)) }
{
    match elements_of(value) {
        Some(values) => each_field(alloc, values),
        None => Ok(None),
    }
}

fn fields_in(alloc: Global, value: &Value) -> Result<Option<Vec<SpelledField<'_>>>, NoMemory>
    ensures { IfOk result (λ fields. option_map items_of fields ≡ spec.fields_in (view value.now)) }
{
    match value.get("fields") {
        Some(fields) => fields_of(alloc, fields),
        None => Ok(None),
    }
}

fn extensions_in(alloc: Global, value: &Value) -> Result<Option<Vec<SpelledField<'_>>>, NoMemory>
    ensures { IfOk result (λ fields. option_map items_of fields ≡ spec.extensions_in (view value.now)) }
{
    match value.get("extensions") {
        Some(fields) => fields_of(alloc, fields),
        None => Ok(Some(Vec::new(alloc))),
    }
}

/// The message that a value is, if it has the members of one.
pub(crate) fn message_in(
    alloc: Global,
    value: &Value,
) -> Result<Option<SpelledMessage<'_>>, NoMemory>
    ensures { IfOk result (λ message. message ≡ spec.message_in (view value.now)) }
{
    let (Some(id), Some(name)) = (id_in(value), text_at(value, "name")) else {
        return Ok(None);
    };
    let (Some(fields), Some(extensions)) = (fields_in(alloc, value)?, extensions_in(alloc, value)?)
    else {
        return Ok(None);
    };
    Ok(Some(SpelledMessage {
        id,
        name,
        fields,
        extensions,
    }))
}

/// The messages of the top level.
pub(crate) fn messages_in(top: &Value) -> Option<&[Value]>
    ensures { option_map (λ values. map view values.now) result ≡ spec.messages_in (view top.now) }
{
    match top.get("messages") {
        Some(messages) => elements_of(messages),
        None => None,
    }
}
