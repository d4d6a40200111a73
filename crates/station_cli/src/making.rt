// The command `make`, with the number that its line says.
ghost use Rattle.std.specs.Prelude.{◌≡◌, map, string_bytes, IsErrOf};
ghost use Rattle.std.specs.Result.{result_err};
ghost use Rattle.run_status.specs.Seen.{before_status_over, no_input, output_of};
ghost use Rattle.command_line.specs.Lines.{LineSays};
ghost use Rattle.make_command.specs.Spec.{make_spec};
ghost use Rattle.station_cli.specs.Making.{Makes};

use command_line::{Command, Line};
use make_command::make;
use mav_ports::Sink;
use run_status::RunEnd;
use std::alloc::Global;

/// Plays the scenario of the line's number. Writes no status line.
pub(crate) fn run_make<K: Sink>(alloc: Global, line: &Line, out: &mut K) -> Result<(), RunEnd>
    requires command { line.now.command ≡ Command.Make }
    requires says { LineSays line.now }
    ensures makes { Makes (map string_bytes line.now.words.items)
        (λ number. before_status_over (output_of K.faults K.sent out.old out.new) (result_err result)
        (make_spec number) no_input) }
    ensures sound { ¬ IsErrOf result RunEnd.WriteFault → K.faults out.new ≡ K.faults out.old }
{
    make(alloc, line.number as u32, out)
}
