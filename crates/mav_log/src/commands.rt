// The commands over logs.
ghost use Rattle.std.specs.Prelude.{◌≡◌, ◌≤◌, IsErrOf};
ghost use Rattle.std.specs.Result.{result_err};
ghost use Rattle.run_status.specs.Seen.{before_status_over, input_of, output_of};
ghost use Rattle.mav_log.specs.Spec.{show_spec, filter_spec, make_spec};

use crate::filter_teller::Filter;
use crate::make_teller::Make;
use crate::show_teller::Show;
use decode_command::run_teller;
use dialect::Dialect;
use mav_ports::{Sink, Source};
use run_status::RunEnd;
use std::alloc::Global;

/// Prints the rows of a log, whose frames have these messages, and the bytes that are in none. What is printed of what
/// was read is written before more is read. Writes no status line.
pub fn run_show<S: Source, K: Sink>(
    alloc: Global,
    known: Dialect,
    main: &mut S,
    out: &mut K,
) -> Result<(), RunEnd>
    ensures untold { before_status_over (output_of K.faults K.sent out.old out.new) (result_err result)
        (show_spec known) (input_of S.has_ended S.faults S.idles S.left main.old main.new) }
    ensures sound { ¬ IsErrOf result RunEnd.WriteFault → K.faults out.new ≡ K.faults out.old }
{
    let mut show = Show::new(alloc, known)?;
    let end = run_teller(alloc, &mut show, main, out);
    show.discard();
    end
}

/// Writes the rows of a log whose frames are of a system, as they are.
pub fn run_filter<S: Source, K: Sink>(
    alloc: Global,
    known: Dialect,
    sys: u8,
    main: &mut S,
    out: &mut K,
) -> Result<(), RunEnd>
    ensures untold { before_status_over (output_of K.faults K.sent out.old out.new) (result_err result)
        (filter_spec known sys) (input_of S.has_ended S.faults S.idles S.left main.old main.new) }
    ensures sound { ¬ IsErrOf result RunEnd.WriteFault → K.faults out.new ≡ K.faults out.old }
{
    let mut filter = Filter::new(alloc, known, sys)?;
    let end = run_teller(alloc, &mut filter, main, out);
    filter.discard();
    end
}

/// Writes the frames of a stream as rows, the first at `start` and each 1,000 microseconds after the one before.
pub fn run_make<S: Source, K: Sink>(
    alloc: Global,
    known: Dialect,
    start: u64,
    main: &mut S,
    out: &mut K,
) -> Result<(), RunEnd>
    requires { start ≤ 4000000000000000 }
    ensures untold { before_status_over (output_of K.faults K.sent out.old out.new) (result_err result)
        (make_spec known start) (input_of S.has_ended S.faults S.idles S.left main.old main.new) }
    ensures sound { ¬ IsErrOf result RunEnd.WriteFault → K.faults out.new ≡ K.faults out.old }
{
    let mut make = Make::new(alloc, known, start)?;
    let end = run_teller(alloc, &mut make, main, out);
    make.discard();
    end
}
