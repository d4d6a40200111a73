// The command `make`.
ghost use Rattle.std.specs.Prelude.{◌≡◌, false, IfOk, IsErrOf};
ghost use Rattle.std.specs.Result.{result_err};
ghost use Rattle.run_status.specs.Seen.{before_status_over, no_input, output_of};
ghost use Rattle.fleet_world.specs.Scenario.{whole_report};
ghost use Rattle.scenario_maker.specs.Sums.{sums_text};
ghost use Rattle.scenario_maker.specs.Generated.{generated};
ghost use Rattle.make_command.specs.Spec.{make_spec};
ghost use Rattle.make_command.specs.Theorem.{GeneratedTheorem};

use crate::report_sink::ReportSink;
use command_inputs::default_key;
use fleet_command::fleet;
use mav_ports::{NoMemory, Sink, SureSource, write_all};
use run_status::RunEnd;
use scenario_maker::{scenario_text, sums_text};
use std::alloc::{AllocError, Global};

/// Plays the scenario that a number gives, and writes the sums of its report. Writes no status line.
pub fn make<K: Sink>(alloc: Global, number: u32, out: &mut K) -> Result<(), RunEnd>
    ensures before_status { before_status_over (output_of K.faults K.sent out.old out.new) (result_err result)
        (make_spec number) no_input }
    ensures sound { ¬ IsErrOf result RunEnd.WriteFault → K.faults out.new ≡ K.faults out.old }
    // The scenario of every number is authentic and played to its end, so it has the theorem of `fleet`.
    ensures theorem { GeneratedTheorem number }
{
    let text = generated_sums(alloc, number)?;
    Ok(write_all(out, &text)?)
}

// The sums of the report of the scenario that a number gives.
fn generated_sums(alloc: Global, number: u32) -> Result<Vec<u8>, NoMemory>
    ensures { IfOk result (λ text. text.items ≡ sums_text (whole_report false (generated number))) }
{
    let mut scenario = SureSource::new(scenario_text(alloc, number)?);
    let mut report = ReportSink::new(alloc);
    match fleet(alloc, default_key(), false, &mut scenario, &mut report) {
        Ok(()) => sums_text(alloc, report.sent()),
        // A write to memory fails only if none is left.
        Err(RunEnd::NoMemory | RunEnd::WriteFault) => Err(AllocError),
        // The scenario of every number is played to its end, and a source in memory neither fails nor idles.
        Err(RunEnd::Usage) => unreachable!(),
        Err(RunEnd::Stopped(_)) => unreachable!(),
        Err(RunEnd::ReadFault) => unreachable!(),
        Err(RunEnd::TurnsSpent) => unreachable!(),
        // It has no port.
        Err(RunEnd::Live(_)) => unreachable!(),
    }
}
