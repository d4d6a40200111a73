// The status of a run, and its text.
ghost use Rattle.std.specs.Prelude.{◌≡◌, ◌⊎◌, OnOk, IfErr, IsErrOf};
ghost use Rattle.std.specs.Result.{result_err};
ghost use Rattle.std.specs.Io.KnownBytes.{append_known};
ghost use Rattle.mav_ports.specs.Counts.{Rose};
ghost use Rattle.mav_ports.specs.Puts.{SentPrefix};
ghost use Rattle.run_status.specs.Endings.{code_of, text_of};
ghost use Rattle.run_status.specs.StatusText.{WritesStatus};

use crate::run_ends::RunEnd;
use mav_ports::{Sink, write_all};
use std::alloc::Global;

// Writes the text of the status after the report.
fn write_text<K: Sink>(alloc: Global, run_end: RunEnd, out: &mut K) -> Result<(), RunEnd>
    ensures reported { OnOk result (K.sent out.new ≡ append_known (K.sent out.old) (text_of run_end)) }
    ensures refused { IsErrOf result RunEnd.WriteFault → Rose (K.faults out.old) (K.faults out.new)
        × SentPrefix (K.sent out.old) (K.sent out.new) (text_of run_end) }
    ensures no_memory { IsErrOf result RunEnd.NoMemory → K.sent out.new ≡ K.sent out.old }
    ensures silent { run_end ≡ RunEnd.WriteFault → ¬ IsErrOf result RunEnd.NoMemory }
    ensures errors { IfErr result (λ e. (e ≡ RunEnd.WriteFault) ⊎ (e ≡ RunEnd.NoMemory)) }
    ensures sound { ¬ IsErrOf result RunEnd.WriteFault → K.faults out.new ≡ K.faults out.old }
{
    let text = run_end.text(alloc)?;
    Ok(write_all(out, text.as_bytes())?)
}

/// Writes why a run halted, if it did, and returns how the run ends now: a write of that text
/// can fail, and there can be no memory for it.
pub fn write_status<K: Sink>(
    alloc: Global,
    ended: Result<(), RunEnd>,
    out: &mut K,
) -> Result<(), RunEnd>
    ensures writes { WritesStatus ended result (K.faults out.old) (K.faults out.new)
        (K.sent out.old) (K.sent out.new) }
{
    let run_end = match ended {
        Ok(()) => return Ok(()),
        Err(run_end) => run_end,
    };
    match write_text(alloc, run_end, out) {
        Ok(()) => Err(run_end),
        Err(worse) => Err(worse),
    }
}

/// The exit status of a run that ended so.
pub fn code_of(ended: Result<(), RunEnd>) -> u8
    ensures { result ≡ code_of (result_err ended) }
{
    match ended {
        Ok(()) => 0,
        Err(run_end) => run_end.code(),
    }
}
