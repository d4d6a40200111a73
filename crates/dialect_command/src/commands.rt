// The command `dialect`.
ghost use Rattle.std.specs.Prelude.{◌≡◌, OnOk, IsErrOf};
ghost use Rattle.std.specs.Result.{result_err};
ghost use Rattle.mav_ports.specs.Gets.{IsSpent};
ghost use Rattle.run_status.specs.Seen.{before_status_over, input_of, no_input, output_of};
ghost use Rattle.dialect_command.specs.Ends.{Told, Refused, IsTooLong};
ghost use Rattle.dialect_command.specs.Spec.{dialect_spec, profile_spec};

use crate::definitions::read_definitions;
use crate::layouts::write_dialect;
use dialect::Dialect;
use mav_ports::{Sink, Source};
use run_status::{Bound, InputError, Place, Reason, RunEnd};
use std::alloc::Global;

/// Writes the layouts of the definitions that an input holds. Writes no status line.
pub fn dialect<S: Source, K: Sink>(
    alloc: Global,
    definitions: &mut S,
    out: &mut K,
) -> Result<(), RunEnd>
    ensures untold { before_status_over (output_of K.faults K.sent out.old out.new) (result_err result)
        dialect_spec (input_of S.has_ended S.faults S.idles S.left definitions.old definitions.new) }
    // It is done if the input holds definitions, and all of their text was written.
    ensures done { OnOk result (Told (S.has_ended definitions.new × IsSpent (S.left definitions.new))
        (S.left definitions.old) (S.left definitions.new) (K.sent out.old) (K.sent out.new)) }
    // It stops at their first fault, or at one byte too many.
    ensures bad { (reason : Reason)
        → IsErrOf result (RunEnd.Stopped (InputError.Bad Place.Definitions reason))
        → Refused reason (S.has_ended definitions.new × IsSpent (S.left definitions.new))
        (S.left definitions.old) (S.left definitions.new) (K.sent out.old) (K.sent out.new) }
    ensures limit { (limit : Bound) → IsErrOf result (RunEnd.Stopped (InputError.AtLimit limit))
        → IsTooLong (S.left definitions.old) (S.left definitions.new)
        (K.sent out.old) (K.sent out.new) }
    ensures sound { ¬ IsErrOf result RunEnd.WriteFault → K.faults out.new ≡ K.faults out.old }
{
    let dialect = read_definitions(alloc, definitions)?;
    write_dialect(alloc, &dialect, out)
}

/// Writes the layouts of the profile, as a command over an input without bytes would.
pub fn profile<K: Sink>(alloc: Global, out: &mut K) -> Result<(), RunEnd>
    ensures untold { before_status_over (output_of K.faults K.sent out.old out.new) (result_err result)
        profile_spec no_input }
    ensures sound { ¬ IsErrOf result RunEnd.WriteFault → K.faults out.new ≡ K.faults out.old }
{
    let dialect = Dialect::profile(alloc)?;
    write_dialect(alloc, &dialect, out)
}
