// The command `fence`.
ghost use Rattle.std.specs.Prelude.{◌≡◌, ◌⊎◌, OnOk, IfErr, IsErrOf};
ghost use Rattle.std.specs.Result.{result_err};
ghost use Rattle.std.specs.Io.KnownBytes.{append_known};
ghost use Rattle.mav_ports.specs.Counts.{Rose};
ghost use Rattle.mav_ports.specs.Puts.{SentPrefix};
ghost use Rattle.run_status.specs.Seen.{before_status_over, input_of, output_of};
ghost use Rattle.fence_command.specs.Files.{state_of};
ghost use Rattle.fence_command.specs.FenceText.{fence_text};
ghost use Rattle.fence_command.specs.Spec.{fence_spec};

use crate::FenceFile;
use crate::plans::check_plans;
use crate::reading::read_file;
use crate::reports::report_of;
use mav_ports::{Sink, Source, write_all};
use run_status::RunEnd;
use std::alloc::Global;

/// Reads a file to its end, and writes what its fence says of its mission and of the flight. Writes no status line.
pub fn fence<S: Source, K: Sink>(alloc: Global, main: &mut S, out: &mut K) -> Result<(), RunEnd>
    ensures before_status { before_status_over (output_of K.faults K.sent out.old out.new) (result_err result)
        fence_spec (input_of S.has_ended S.faults S.idles S.left main.old main.new) }
    ensures sound { ¬ IsErrOf result RunEnd.WriteFault → K.faults out.new ≡ K.faults out.old }
{
    let file = read_file(alloc, main)?;
    check_plans(&file)?;
    write_report(alloc, &file, out)
}

// Writes the whole report at once.
fn write_report<K: Sink>(alloc: Global, file: &FenceFile, out: &mut K) -> Result<(), RunEnd>
    ensures reported { OnOk result (K.sent out.new ≡ append_known (K.sent out.old) (fence_text (state_of file.now))) }
    ensures refused { IsErrOf result RunEnd.WriteFault → Rose (K.faults out.old) (K.faults out.new)
        × SentPrefix (K.sent out.old) (K.sent out.new) (fence_text (state_of file.now)) }
    ensures no_memory { IsErrOf result RunEnd.NoMemory → K.sent out.new ≡ K.sent out.old }
    ensures errors { IfErr result (λ e. (e ≡ RunEnd.WriteFault) ⊎ (e ≡ RunEnd.NoMemory)) }
    ensures sound { ¬ IsErrOf result RunEnd.WriteFault → K.faults out.new ≡ K.faults out.old }
{
    let text = report_of(alloc, file)?;
    Ok(write_all(out, text.as_bytes())?)
}
