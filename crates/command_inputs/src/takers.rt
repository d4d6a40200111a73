// What takes lines.
use scenario_lines::LineFault;
use std::alloc::Global;

/// What takes the lines of an input, one after another.
pub trait LineTaker {
    ghost use Rattle.std.specs.Prelude.{ℕ, List};
    ghost use Rattle.std.specs.declared.result.Result.{Result};
    ghost use Rattle.scenario_lines.specs.declared.faults.Reason.{Reason};
    ghost use Rattle.command_inputs.specs.Takers.{FaultSays};

    /// What a line with this text makes of it, or the first reason against the line.
    ghost says: { Self → List ℕ → Result Self Reason };

    /// Takes the text of a line, without its LF. After a fault the taker is given up.
    fn take_line(&mut self, alloc: Global, text: &[u8]) -> Result<(), LineFault>
        ensures { FaultSays result (says self.old text.now) self.new };
}
