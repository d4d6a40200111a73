// The commands over logs, with the text of their status.
ghost use Rattle.std.specs.Prelude.{◌≤◌};
ghost use Rattle.run_status.specs.Seen.{input_of, output_of, promised_over};
ghost use Rattle.mav_log.specs.Spec.{show_spec, filter_spec, make_spec};

use crate::commands::{run_filter, run_make, run_show};
use dialect::Dialect;
use mav_ports::{Sink, Source};
use run_status::{code_of, write_status};
use std::alloc::Global;

/// Prints the rows of a log as `run_show` does, and then the text of the status, which it returns.
pub fn show<S: Source, K: Sink>(alloc: Global, known: Dialect, main: &mut S, out: &mut K) -> u8
    ensures { promised_over (output_of K.faults K.sent out.old out.new) result
        (show_spec known) (input_of S.has_ended S.faults S.idles S.left main.old main.new) }
{
    let ended = run_show(alloc, known, main, out);
    code_of(write_status(alloc, ended, out))
}

/// Writes the rows of one system as `run_filter` does, and then the text of the status, which it returns.
pub fn filter<S: Source, K: Sink>(
    alloc: Global,
    known: Dialect,
    sys: u8,
    main: &mut S,
    out: &mut K,
) -> u8
    ensures { promised_over (output_of K.faults K.sent out.old out.new) result
        (filter_spec known sys) (input_of S.has_ended S.faults S.idles S.left main.old main.new) }
{
    let ended = run_filter(alloc, known, sys, main, out);
    code_of(write_status(alloc, ended, out))
}

/// Writes frames as rows as `run_make` does, and then the text of the status, which it returns.
pub fn make<S: Source, K: Sink>(
    alloc: Global,
    known: Dialect,
    start: u64,
    main: &mut S,
    out: &mut K,
) -> u8
    requires { start ≤ 4000000000000000 }
    ensures { promised_over (output_of K.faults K.sent out.old out.new) result
        (make_spec known start) (input_of S.has_ended S.faults S.idles S.left main.old main.new) }
{
    let ended = run_make(alloc, known, start, main, out);
    code_of(write_status(alloc, ended, out))
}
