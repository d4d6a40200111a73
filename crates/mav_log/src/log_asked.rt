// The commands on logs, with the definitions that their line names.
ghost use Rattle.std.specs.Prelude.{◌≡◌, false, map, string_bytes, IsErr, IsErrOf};
ghost use Rattle.std.specs.Result.{result_err};
ghost use Rattle.command_line.specs.Forms.{has_given};
ghost use Rattle.command_line.specs.Lines.{given_of, LineSays};
ghost use Rattle.mav_log.specs.Logging.{Logs, log_spec};
ghost use Rattle.run_status.specs.Seen.{input_of, output_of, before_status_over};

use crate::{run_filter, run_make, run_show};
use command_inputs::Inputs;
use command_line::{Command, Line, OptionName};
use dialect::Dialect;
use dialect_command::known_messages;
use mav_ports::{Sink, Source};
use run_status::RunEnd;
use std::alloc::Global;

// Runs the command over the main input.
fn log_by<S: Source, K: Sink>(
    alloc: Global,
    line: &Line,
    known: Dialect,
    main: &mut S,
    out: &mut K,
) -> Result<(), RunEnd>
    requires says { LineSays line.now }
    ensures runs { before_status_over (output_of K.faults K.sent out.old out.new) (result_err result)
        (log_spec line.now.command known line.now.number)
        (input_of S.has_ended S.faults S.idles S.left main.old main.new) }
    ensures sound { ¬ IsErrOf result RunEnd.WriteFault → K.faults out.new ≡ K.faults out.old }
{
    match line.command {
        Command::LogFilter => run_filter(alloc, known, line.number as u8, main, out),
        Command::LogMake => run_make(alloc, known, line.number, main, out),
        _ => run_show(alloc, known, main, out),
    }
}

/// Shows, filters or makes a log. Writes no status line.
pub fn run_log<S: Source, K: Sink>(
    alloc: Global,
    line: &Line,
    inputs: &mut Inputs<S>,
    out: &mut K,
) -> Result<(), RunEnd>
    requires says { LineSays line.now }
    ensures logs { Logs line.now.command (map string_bytes line.now.words.items)
        (has_given OptionName.Defs (map given_of line.now.settings.items))
        (before_status_over (output_of K.faults K.sent out.old out.new) (result_err result)) (IsErr result)
        (input_of S.has_ended S.faults S.idles S.left inputs.old.defs inputs.new.defs)
        (input_of S.has_ended S.faults S.idles S.left inputs.old.main inputs.new.main) }
    ensures unread_defs { has_given OptionName.Defs (map given_of line.now.settings.items) ≡ false
        → inputs.new.defs ≡ inputs.old.defs }
    ensures unread_key { inputs.new.key ≡ inputs.old.key }
    ensures sound { ¬ IsErrOf result RunEnd.WriteFault → K.faults out.new ≡ K.faults out.old }
{
    let known = known_messages(alloc, line, &mut inputs.defs)?;
    log_by(alloc, line, known, &mut inputs.main, out)
}
