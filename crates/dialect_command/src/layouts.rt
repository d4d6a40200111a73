// The text of a dialect.
ghost use Rattle.std.specs.Result.{result_err};
ghost use Rattle.mav_text.specs.LayoutText.{layout_text, dialect_text};
ghost use Rattle.dialect_command.specs.Writes.{WroteText, count_line};

use dialect::Dialect;
use field_layout::Layout;
use mav_ports::{Sink, write_all};
use mav_text::put_layout;
use run_status::RunEnd;
use std::alloc::Global;

/// Writes the lines of each message as they are made, and how many messages there are.
pub(crate) fn write_dialect<K: Sink>(
    alloc: Global,
    dialect: &Dialect,
    out: &mut K,
) -> Result<(), RunEnd>
    ensures { WroteText (dialect_text dialect.now) (result_err result)
        (K.faults out.old) (K.faults out.new) (K.sent out.old) (K.sent out.new) }
{
    let mut text = Vec::new(alloc);
    for place in 0..dialect.len() {
        write_message(dialect.at(place).unwrap(), &mut text, out)?;
    }
    write_count(alloc, dialect.len(), out)
}

// Writes the lines of a message, made in a buffer.
fn write_message<K: Sink>(layout: &Layout, text: &mut Vec<u8>, out: &mut K) -> Result<(), RunEnd>
    ensures { WroteText (layout_text layout.now) (result_err result)
        (K.faults out.old) (K.faults out.new) (K.sent out.old) (K.sent out.new) }
{
    text.clear();
    put_layout(layout, text)?;
    Ok(write_all(out, text)?)
}

// Writes the last line.
fn write_count<K: Sink>(alloc: Global, messages: usize, out: &mut K) -> Result<(), RunEnd>
    ensures { WroteText (count_line messages) (result_err result)
        (K.faults out.old) (K.faults out.new) (K.sent out.old) (K.sent out.new) }
{
    let line = format!(in alloc; "messages {messages}\n")?;
    Ok(write_all(out, line.as_bytes())?)
}
