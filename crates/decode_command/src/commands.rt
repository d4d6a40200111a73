// The command `decode`.
ghost use Rattle.std.specs.Prelude.{◌≡◌, IsErrOf};
ghost use Rattle.std.specs.Result.{result_err};
ghost use Rattle.run_status.specs.Seen.{before_status_over, input_of, output_of};
ghost use Rattle.decode_command.specs.Spec.{decode_spec};

use crate::context::DecodeContext;
use crate::decoder::Decoder;
use crate::running::run_teller;
use mav_ports::{Sink, Source};
use run_status::RunEnd;
use std::alloc::Global;

/// Decodes an input with the given messages and key. The lines of what was read are written before more is read. Why
/// the run halted, if it did, isn't written.
pub fn decode_by<S: Source, K: Sink>(
    alloc: Global,
    known: DecodeContext,
    main: &mut S,
    out: &mut K,
) -> Result<(), RunEnd>
    ensures untold { before_status_over (output_of K.faults K.sent out.old out.new) (result_err result)
        (decode_spec known) (input_of S.has_ended S.faults S.idles S.left main.old main.new) }
    ensures sound { ¬ IsErrOf result RunEnd.WriteFault → K.faults out.new ≡ K.faults out.old }
{
    let mut decoder = Decoder::new(alloc, known)?;
    let end = run_teller(alloc, &mut decoder, main, out);
    decoder.discard();
    end
}
