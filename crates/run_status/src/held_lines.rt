// Lines that are held until there are enough of them to be written.
ghost use Rattle.std.specs.Prelude.{◌≡◌, [], OnOk};
ghost use Rattle.run_status.specs.HeldLines.{WritesLines};
ghost use Rattle.run_status.specs.Seen.{output_of};

use crate::run_ends::RunEnd;
use mav_ports::{Sink, write_all};

/// How many bytes of lines are written at once.
pub const ENOUGH_BYTES: usize = 65_536;

/// Writes the lines that are held.
pub fn write_held<K: Sink>(lines: &mut Vec<u8>, out: &mut K) -> Result<(), RunEnd>
    ensures writes { WritesLines (output_of K.faults K.sent out.old out.new) lines.old.items lines.new.items result }
    ensures empty { OnOk result (lines.new.items ≡ []) }
{
    write_all(out, lines)?;
    lines.clear();
    Ok(())
}

/// Writes them if they are enough.
pub fn write_enough<K: Sink>(lines: &mut Vec<u8>, out: &mut K) -> Result<(), RunEnd>
    ensures { WritesLines (output_of K.faults K.sent out.old out.new) lines.old.items lines.new.items result }
{
    if lines.len() < ENOUGH_BYTES {
        return Ok(());
    }
    write_held(lines, out)
}
