// A file as an input gives it.
ghost use Rattle.std.specs.Prelude.{◌≡◌, IfOk, IfErr};
ghost use Rattle.mav_ports.specs.Gets.{IsSpent};
ghost use Rattle.run_status.specs.Seen.{halted_over, input_of};
ghost use Rattle.fence_command.specs.FenceFile.{empty_file};
ghost use Rattle.fence_command.specs.Files.{state_of};
ghost use Rattle.fence_command.specs.Spec.{HoldsFile, fence_spec};

use crate::FenceFile;
use crate::lines::read_text;
use command_inputs::{LineTaker, read_lines};
use mav_ports::Source;
use run_status::RunEnd;
use scenario_lines::LineFault;
use std::alloc::Global;
use std::marker::Model;

// What the lines taken so far say.
#[derive(Drop)]
struct FenceLines {
    file: FenceFile,
}

impl Model for FenceLines {
    ghost use Rattle.fence_command.specs.FenceFile.{FileState};
    ghost use Rattle.fence_command.specs.Files.{state_of};

    ghost Value = { FileState };

    ghost view = { λ lines. state_of lines.file };
}

impl LineTaker for FenceLines {
    ghost use Rattle.fence_command.specs.FenceFile.{line_says};

    ghost says = { line_says };

    fn take_line(&mut self, alloc: Global, text: &[u8]) -> Result<(), LineFault> {
        read_text(alloc, &mut self.file, text)
    }
}

impl FenceLines {
    fn new(alloc: Global) -> FenceLines
        ensures { result ≡ empty_file }
    {
        FenceLines {
            file: FenceFile::new(alloc),
        }
    }

    fn into_file(self) -> FenceFile
        ensures { state_of result ≡ self }
    {
        self.file
    }
}

/// Reads an input to its end, and returns what its lines say.
pub(crate) fn read_file<S: Source>(alloc: Global, input: &mut S) -> Result<FenceFile, RunEnd>
    ensures holds { IfOk result (HoldsFile (S.has_ended input.new × IsSpent (S.left input.new))
        (S.left input.old) (S.left input.new)) }
    ensures halts { IfErr result (halted_over fence_spec
        (input_of S.has_ended S.faults S.idles S.left input.old input.new)) }
{
    let mut lines = FenceLines::new(alloc);
    read_lines(alloc, input, &mut lines)?;
    Ok(lines.into_file())
}
