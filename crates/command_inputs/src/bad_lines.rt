// Reasons against a line, as a run's status has them.
ghost use Rattle.std.specs.Prelude.{◌≡◌};
ghost use Rattle.command_inputs.specs.Takers.{bad_line};

use run_status::{InputError, Place, Reason as StatusReason, RunEnd};
use scenario_lines::Reason;

/// There is a reason against this line.
pub fn bad_line(number: usize, reason: Reason) -> RunEnd
    ensures { result ≡ RunEnd.Stopped (bad_line number reason) }
{
    RunEnd::Stopped(InputError::Bad(Place::Line(number), StatusReason::Line(reason)))
}
