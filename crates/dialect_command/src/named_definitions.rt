// The definitions that a line names.
ghost use Rattle.std.specs.Prelude.{◌≡◌, true, false, map, IfOk, IfErr};
ghost use Rattle.mav_ports.specs.Gets.{IsSpent};
ghost use Rattle.command_line.specs.Forms.{has_given};
ghost use Rattle.command_line.specs.Lines.{given_of};
ghost use Rattle.dialect_command.specs.Reads.{Halts, of_input};
ghost use Rattle.dialect_command.specs.Known.{KnownIs};
ghost use Rattle.run_status.specs.Seen.{input_of};

use crate::read_definitions;
use command_line::{Line, OptionName};
use dialect::Dialect;
use mav_ports::Source;
use run_status::RunEnd;
use std::alloc::Global;

/// The definitions that the line names, or those of the profile.
pub fn known_messages<S: Source>(
    alloc: Global,
    line: &Line,
    defs: &mut S,
) -> Result<Dialect, RunEnd>
    ensures is { IfOk result
        (KnownIs (has_given OptionName.Defs (map given_of line.now.settings.items))
        (input_of S.has_ended S.faults S.idles S.left defs.old defs.new)) }
    ensures halts { IfErr result (λ run_end.
        has_given OptionName.Defs (map given_of line.now.settings.items) ≡ true
        → Halts (of_input (S.has_ended defs.new × IsSpent (S.left defs.new))
        (S.faults defs.old) (S.faults defs.new) (S.idles defs.old) (S.idles defs.new))
        (S.left defs.old) (S.left defs.new) run_end) }
    ensures memory { IfErr result (λ run_end.
        has_given OptionName.Defs (map given_of line.now.settings.items) ≡ false → run_end ≡ RunEnd.NoMemory) }
    ensures unread { has_given OptionName.Defs (map given_of line.now.settings.items) ≡ false
        → defs.new ≡ defs.old }
{
    if line.has(OptionName::Defs) {
        read_definitions(alloc, defs)
    } else {
        Ok(Dialect::profile(alloc)?)
    }
}
