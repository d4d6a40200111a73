// The messages of the profile (MAVLink common message set). The extension fields are those that this profile reads.
ghost use Rattle.std.specs.Prelude.{◌≡◌, ◌++◌, [], map, take, drop, None, OnOk, IfOk, IsTrue};
ghost use Rattle.field_layout.specs.Faults.{first_fault};
ghost use Rattle.mav_profile.specs.Profile.{profile_definitions};
ghost use Rattle.dialect.specs.ProfileTable.{field_of_row, definition_of_row, are_laid_out_behind};

use crate::NoMemory;
use crate::layouts::Layouts;
use field_layout::{Field, Label, Layout, MessageDef, Ty};
use std::alloc::{AllocError, Global};

/// A field: its type, the length of its array or 0, and its name.
#[derive(Clone, Copy)]
struct FieldRow(Ty, u8, &'static [u8]);

/// A message: its id, its name, its base fields and its extensions, in definition order.
#[derive(Clone, Copy)]
struct MessageRow {
    id: u32,
    name: &'static [u8],
    fields: &'static [FieldRow],
    extensions: &'static [FieldRow],
}

const TARGET_SYSTEM: FieldRow = FieldRow(Ty::U8, 0, b"target_system");

const TARGET_COMPONENT: FieldRow = FieldRow(Ty::U8, 0, b"target_component");

const MISSION_TYPE: FieldRow = FieldRow(Ty::U8, 0, b"mission_type");

// Heartbeats and parameters.
const PARAMETERS: [MessageRow; 6] = [
    MessageRow {
        id: 0,
        name: b"HEARTBEAT",
        fields: &[
            FieldRow(Ty::U8, 0, b"type"),
            FieldRow(Ty::U8, 0, b"autopilot"),
            FieldRow(Ty::U8, 0, b"base_mode"),
            FieldRow(Ty::U32, 0, b"custom_mode"),
            FieldRow(Ty::U8, 0, b"system_status"),
            FieldRow(Ty::Version, 0, b"mavlink_version"),
        ],
        extensions: &[],
    },
    MessageRow {
        id: 4,
        name: b"PING",
        fields: &[
            FieldRow(Ty::U64, 0, b"time_usec"),
            FieldRow(Ty::U32, 0, b"seq"),
            TARGET_SYSTEM,
            TARGET_COMPONENT,
        ],
        extensions: &[],
    },
    MessageRow {
        id: 20,
        name: b"PARAM_REQUEST_READ",
        fields: &[
            TARGET_SYSTEM,
            TARGET_COMPONENT,
            FieldRow(Ty::Char, 16, b"param_id"),
            FieldRow(Ty::I16, 0, b"param_index"),
        ],
        extensions: &[],
    },
    MessageRow {
        id: 21,
        name: b"PARAM_REQUEST_LIST",
        fields: &[TARGET_SYSTEM, TARGET_COMPONENT],
        extensions: &[],
    },
    MessageRow {
        id: 22,
        name: b"PARAM_VALUE",
        fields: &[
            FieldRow(Ty::Char, 16, b"param_id"),
            FieldRow(Ty::F32, 0, b"param_value"),
            FieldRow(Ty::U8, 0, b"param_type"),
            FieldRow(Ty::U16, 0, b"param_count"),
            FieldRow(Ty::U16, 0, b"param_index"),
        ],
        extensions: &[],
    },
    MessageRow {
        id: 23,
        name: b"PARAM_SET",
        fields: &[
            TARGET_SYSTEM,
            TARGET_COMPONENT,
            FieldRow(Ty::Char, 16, b"param_id"),
            FieldRow(Ty::F32, 0, b"param_value"),
            FieldRow(Ty::U8, 0, b"param_type"),
        ],
        extensions: &[],
    },
];

// The position, and the messages of missions but their items.
const MISSIONS: [MessageRow; 8] = [
    MessageRow {
        id: 33,
        name: b"GLOBAL_POSITION_INT",
        fields: &[
            FieldRow(Ty::U32, 0, b"time_boot_ms"),
            FieldRow(Ty::I32, 0, b"lat"),
            FieldRow(Ty::I32, 0, b"lon"),
            FieldRow(Ty::I32, 0, b"alt"),
            FieldRow(Ty::I32, 0, b"relative_alt"),
            FieldRow(Ty::I16, 0, b"vx"),
            FieldRow(Ty::I16, 0, b"vy"),
            FieldRow(Ty::I16, 0, b"vz"),
            FieldRow(Ty::U16, 0, b"hdg"),
        ],
        extensions: &[],
    },
    MessageRow {
        id: 42,
        name: b"MISSION_CURRENT",
        fields: &[FieldRow(Ty::U16, 0, b"seq")],
        extensions: &[],
    },
    MessageRow {
        id: 43,
        name: b"MISSION_REQUEST_LIST",
        fields: &[TARGET_SYSTEM, TARGET_COMPONENT],
        extensions: &[MISSION_TYPE],
    },
    MessageRow {
        id: 44,
        name: b"MISSION_COUNT",
        fields: &[
            TARGET_SYSTEM,
            TARGET_COMPONENT,
            FieldRow(Ty::U16, 0, b"count"),
        ],
        extensions: &[MISSION_TYPE],
    },
    MessageRow {
        id: 45,
        name: b"MISSION_CLEAR_ALL",
        fields: &[TARGET_SYSTEM, TARGET_COMPONENT],
        extensions: &[MISSION_TYPE],
    },
    MessageRow {
        id: 46,
        name: b"MISSION_ITEM_REACHED",
        fields: &[FieldRow(Ty::U16, 0, b"seq")],
        extensions: &[],
    },
    MessageRow {
        id: 47,
        name: b"MISSION_ACK",
        fields: &[
            TARGET_SYSTEM,
            TARGET_COMPONENT,
            FieldRow(Ty::U8, 0, b"type"),
        ],
        extensions: &[MISSION_TYPE],
    },
    MessageRow {
        id: 51,
        name: b"MISSION_REQUEST_INT",
        fields: &[
            TARGET_SYSTEM,
            TARGET_COMPONENT,
            FieldRow(Ty::U16, 0, b"seq"),
        ],
        extensions: &[MISSION_TYPE],
    },
];

const MISSION_ITEMS: [MessageRow; 1] = [MessageRow {
    id: 73,
    name: b"MISSION_ITEM_INT",
    fields: &[
        TARGET_SYSTEM,
        TARGET_COMPONENT,
        FieldRow(Ty::U16, 0, b"seq"),
        FieldRow(Ty::U8, 0, b"frame"),
        FieldRow(Ty::U16, 0, b"command"),
        FieldRow(Ty::U8, 0, b"current"),
        FieldRow(Ty::U8, 0, b"autocontinue"),
        FieldRow(Ty::F32, 0, b"param1"),
        FieldRow(Ty::F32, 0, b"param2"),
        FieldRow(Ty::F32, 0, b"param3"),
        FieldRow(Ty::F32, 0, b"param4"),
        FieldRow(Ty::I32, 0, b"x"),
        FieldRow(Ty::I32, 0, b"y"),
        FieldRow(Ty::F32, 0, b"z"),
    ],
    extensions: &[MISSION_TYPE],
}];

// Commands, files and texts.
const COMMANDS: [MessageRow; 4] = [
    MessageRow {
        id: 76,
        name: b"COMMAND_LONG",
        fields: &[
            TARGET_SYSTEM,
            TARGET_COMPONENT,
            FieldRow(Ty::U16, 0, b"command"),
            FieldRow(Ty::U8, 0, b"confirmation"),
            FieldRow(Ty::F32, 0, b"param1"),
            FieldRow(Ty::F32, 0, b"param2"),
            FieldRow(Ty::F32, 0, b"param3"),
            FieldRow(Ty::F32, 0, b"param4"),
            FieldRow(Ty::F32, 0, b"param5"),
            FieldRow(Ty::F32, 0, b"param6"),
            FieldRow(Ty::F32, 0, b"param7"),
        ],
        extensions: &[],
    },
    MessageRow {
        id: 77,
        name: b"COMMAND_ACK",
        fields: &[
            FieldRow(Ty::U16, 0, b"command"),
            FieldRow(Ty::U8, 0, b"result"),
        ],
        extensions: &[
            FieldRow(Ty::U8, 0, b"progress"),
            FieldRow(Ty::I32, 0, b"result_param2"),
            TARGET_SYSTEM,
            TARGET_COMPONENT,
        ],
    },
    MessageRow {
        id: 110,
        name: b"FILE_TRANSFER_PROTOCOL",
        fields: &[
            FieldRow(Ty::U8, 0, b"target_network"),
            TARGET_SYSTEM,
            TARGET_COMPONENT,
            FieldRow(Ty::U8, 251, b"payload"),
        ],
        extensions: &[],
    },
    MessageRow {
        id: 253,
        name: b"STATUSTEXT",
        fields: &[
            FieldRow(Ty::U8, 0, b"severity"),
            FieldRow(Ty::Char, 50, b"text"),
        ],
        extensions: &[
            FieldRow(Ty::U16, 0, b"id"),
            FieldRow(Ty::U8, 0, b"chunk_seq"),
        ],
    },
];

fn field_of(alloc: Global, row: &FieldRow) -> Result<Field, NoMemory>
    ensures { IfOk result (λ field. field ≡ field_of_row row.now) }
{
    let FieldRow(ty, len, name) = *row;
    let name = Label::new(name.to_vec(alloc)?);
    Ok(Field { ty, len, name })
}

fn fields_of(alloc: Global, rows: &[FieldRow]) -> Result<Vec<Field>, NoMemory>
    ensures { IfOk result (λ fields. fields.items ≡ map field_of_row rows.now) }
{
    let mut fields = Vec::new(alloc);
    for row in rows {
        fields.push(field_of(alloc, row)?)?;
    }
    Ok(fields)
}

fn definition_of(alloc: Global, row: &MessageRow) -> Result<MessageDef, NoMemory>
    ensures { IfOk result (λ def. def ≡ definition_of_row row.now) }
{
    Ok(MessageDef {
        id: row.id,
        name: Label::new(row.name.to_vec(alloc)?),
        fields: fields_of(alloc, row.fields)?,
        extensions: fields_of(alloc, row.extensions)?,
    })
}

// The layout of a definition without fault.
fn layout_of(def: MessageDef) -> Result<Layout, NoMemory>
    requires { first_fault def ≡ None }
    ensures { IfOk result (λ layout. layout ≡ def) }
{
    match Layout::of(def) {
        Ok(layout) => Ok(layout),
        Err(_) => Err(AllocError),
    }
}

// The layout of a row that has one.
fn layout_of_row(alloc: Global, row: &MessageRow) -> Result<Layout, NoMemory>
    requires { first_fault (definition_of_row row.now) ≡ None }
    ensures { IfOk result (λ layout. layout ≡ definition_of_row row.now) }
{
    layout_of(definition_of(alloc, row)?)
}

// Appends the layouts of rows that have them.
fn lay_out(alloc: Global, rows: &[MessageRow], layouts: &mut Layouts) -> Result<(), NoMemory>
    requires { IsTrue (are_laid_out_behind layouts.old (map definition_of_row rows.now)) }
    ensures { OnOk result (layouts.new ≡ layouts.old ++ map definition_of_row rows.now) }
{
    for row in rows {
        layouts.add(layout_of_row(alloc, row)?)?;
    }
    Ok(())
}

fn parameters() -> &'static [MessageRow]
    ensures { map definition_of_row result.now ≡ take 6 profile_definitions }
{
    &PARAMETERS
}

fn missions() -> &'static [MessageRow]
    ensures { map definition_of_row result.now ≡ take 8 (drop 6 profile_definitions) }
{
    &MISSIONS
}

fn mission_items() -> &'static [MessageRow]
    ensures { map definition_of_row result.now ≡ take 1 (drop 14 profile_definitions) }
{
    &MISSION_ITEMS
}

fn commands() -> &'static [MessageRow]
    ensures { map definition_of_row result.now ≡ drop 15 profile_definitions }
{
    &COMMANDS
}

// Appends the layouts of the profile's rows.
fn lay_out_profile(alloc: Global, layouts: &mut Layouts) -> Result<(), NoMemory>
    requires { layouts.old ≡ [] }
    ensures { OnOk result (layouts.new ≡ profile_definitions) }
{
    lay_out(alloc, parameters(), layouts)?;
    lay_out(alloc, missions(), layouts)?;
    lay_out(alloc, mission_items(), layouts)?;
    lay_out(alloc, commands(), layouts)
}

/// The layouts of the profile.
pub(crate) fn profile_layouts(alloc: Global) -> Result<Layouts, NoMemory>
    ensures { IfOk result (λ layouts. layouts ≡ profile_definitions) }
{
    let mut layouts = Layouts::new(alloc);
    lay_out_profile(alloc, &mut layouts)?;
    Ok(layouts)
}
