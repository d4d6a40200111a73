// The command `dialect`, with the definitions that its line names.
ghost use Rattle.std.specs.Prelude.{◌≡◌, false, IsErrOf};
ghost use Rattle.std.specs.Result.{result_err};
ghost use Rattle.dialect_command.specs.Dialects.{Dialects};
ghost use Rattle.run_status.specs.Seen.{input_of, output_of, before_status_over};

use crate::{dialect, profile};
use mav_ports::{Sink, Source};
use run_status::RunEnd;
use std::alloc::Global;

/// Describes the definitions if the line names them, else the profile. Writes no status line.
pub fn run_dialect<S: Source, K: Sink>(
    alloc: Global,
    named: bool,
    defs: &mut S,
    out: &mut K,
) -> Result<(), RunEnd>
    ensures does { Dialects named (before_status_over (output_of K.faults K.sent out.old out.new) (result_err result))
        (input_of S.has_ended S.faults S.idles S.left defs.old defs.new) }
    ensures unread { named ≡ false → defs.new ≡ defs.old }
    ensures sound { ¬ IsErrOf result RunEnd.WriteFault → K.faults out.new ≡ K.faults out.old }
{
    if named {
        dialect(alloc, defs, out)
    } else {
        profile(alloc, out)
    }
}
