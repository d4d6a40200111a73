// The command `decode`, with the key and the definitions that its line names.
ghost use Rattle.std.specs.Prelude.{◌≡◌, false, map, IsErr, IsErrOf};
ghost use Rattle.std.specs.Result.{result_err};
ghost use Rattle.command_line.specs.Forms.{has_given};
ghost use Rattle.command_line.specs.Lines.{given_of};
ghost use Rattle.decode_command.specs.Decoding.{Decodes};
ghost use Rattle.run_status.specs.Seen.{input_of, output_of, before_status_over};

use crate::{DecodeContext, decode_by};
use command_inputs::{Inputs, named_key};
use command_line::{Line, OptionName};
use dialect_command::known_messages;
use mav_ports::{Sink, Source};
use run_status::RunEnd;
use std::alloc::Global;

/// Decodes the main input. Writes no status line.
pub fn run_decode<S: Source, K: Sink>(
    alloc: Global,
    line: &Line,
    inputs: &mut Inputs<S>,
    out: &mut K,
) -> Result<(), RunEnd>
    ensures decoded { Decodes
        (has_given OptionName.Key (map given_of line.now.settings.items))
        (has_given OptionName.Defs (map given_of line.now.settings.items))
        (before_status_over (output_of K.faults K.sent out.old out.new) (result_err result)) (IsErr result)
        (input_of S.has_ended S.faults S.idles S.left inputs.old.key inputs.new.key)
        (input_of S.has_ended S.faults S.idles S.left inputs.old.defs inputs.new.defs)
        (input_of S.has_ended S.faults S.idles S.left inputs.old.main inputs.new.main) }
    ensures unread_defs { has_given OptionName.Defs (map given_of line.now.settings.items) ≡ false
        → inputs.new.defs ≡ inputs.old.defs }
    ensures unread_key { has_given OptionName.Key (map given_of line.now.settings.items) ≡ false
        → inputs.new.key ≡ inputs.old.key }
    ensures sound { ¬ IsErrOf result RunEnd.WriteFault → K.faults out.new ≡ K.faults out.old }
{
    let key = named_key(line, &mut inputs.key)?;
    let dialect = known_messages(alloc, line, &mut inputs.defs)?;
    decode_by(alloc, DecodeContext { dialect, key }, &mut inputs.main, out)
}
