// The tests of one message, and its definition.
ghost use Rattle.std.specs.Prelude.{◌≡◌, is_some, IfOk};
ghost use Rattle.std.specs.List.{list_all, filter_map};
ghost use Rattle.dialect.specs.Types.{field_type_of};
ghost use Rattle.dialect.specs.Names as form;
ghost use Rattle.dialect.specs.Grammar as spec;

use crate::NoMemory;
use crate::names::{is_field_name, is_message_name};
use crate::shape::{SpelledField, SpelledMessage};
use crate::types::field_type;
use field_layout::{Field, Label, MessageDef};
use std::alloc::Global;

fn has_type(field: &SpelledField) -> bool
    ensures { result ≡ is_some (field_type_of field.now.ty) }
{
    field_type(field.ty).is_some()
}

fn have_types(fields: &[SpelledField]) -> bool
    ensures { result ≡ list_all (λ field. is_some (field_type_of field.ty)) fields.now }
{
    fields.iter().all(|field| has_type(field))
}

/// Whether each type is one of the list.
pub(crate) fn has_types(message: &SpelledMessage) -> bool
    ensures { result ≡ spec.has_types message.now }
{
    have_types(&message.fields) && have_types(&message.extensions)
}

fn has_name(field: &SpelledField) -> bool
    ensures { result ≡ form.is_field_name field.now.name }
{
    is_field_name(field.name)
}

fn have_names(fields: &[SpelledField]) -> bool
    ensures { result ≡ list_all (λ field. form.is_field_name field.name) fields.now }
{
    fields.iter().all(|field| has_name(field))
}

/// Whether each name has its form.
pub(crate) fn has_names(message: &SpelledMessage) -> bool
    ensures { result ≡ spec.has_names message.now }
{
    is_message_name(message.name) && have_names(&message.fields) && have_names(&message.extensions)
}

// The field, if its type is one of the list.
fn field_of(alloc: Global, field: &SpelledField) -> Result<Option<Field>, NoMemory>
    ensures { IfOk result (λ defined. defined ≡ spec.field_of field.now) }
{
    match field_type(field.ty) {
        Some((ty, len)) => {
            let name = Label::new(field.name.to_vec(alloc)?);
            Ok(Some(Field { ty, len, name }))
        }
        None => Ok(None),
    }
}

fn fields_of(alloc: Global, fields: &[SpelledField]) -> Result<Vec<Field>, NoMemory>
    ensures { IfOk result (λ defined. defined.items ≡ filter_map spec.field_of fields.now) }
{
    let mut defined = Vec::new(alloc);
    for field in fields {
        if let Some(field) = field_of(alloc, field)? {
            defined.push(field)?;
        }
    }
    Ok(defined)
}

/// The definition that a message encodes.
pub(crate) fn definition_of(alloc: Global, message: &SpelledMessage) -> Result<MessageDef, NoMemory>
    ensures { IfOk result (λ def. def ≡ spec.definition_of message.now) }
{
    Ok(MessageDef {
        id: message.id,
        name: Label::new(message.name.to_vec(alloc)?),
        fields: fields_of(alloc, &message.fields)?,
        extensions: fields_of(alloc, &message.extensions)?,
    })
}
