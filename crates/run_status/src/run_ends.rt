// Why a run ends before its work is done, and what is printed of it.
ghost use Rattle.std.specs.Prelude.{◌≡◌, IfOk, IsOk, Some, string_bytes};
ghost use Rattle.run_status.specs.Endings.{code_of, text_of};

use crate::NoMemory;
use crate::input_errors::InputError;
use crate::live_ends::LiveEnd;
use mav_ports::WriteFault;
use std::alloc::{AllocError, AllocFailed, Global};

/// Why a run ends before its work is done.
#[derive(Clone, Copy)]
pub enum RunEnd {
    /// The words aren't of the grammar.
    Usage,
    /// An input has what ends a run.
    Stopped(InputError),
    ReadFault,
    WriteFault,
    NoMemory,
    /// An input returned Idle 1,000,000 times in a row.
    TurnsSpent,
    /// A run over ports ends so.
    Live(LiveEnd),
}

impl From<AllocError> for RunEnd {
    ghost use Rattle.run_status.specs.declared.run_ends.RunEnd.TheVariants.{NoMemory};

    ghost from_gives = { λ _ run_end. run_end ≡ NoMemory };

    fn from(_: AllocError) -> Self {
        RunEnd::NoMemory
    }
}

impl<T: Drop> From<AllocFailed<T>> for RunEnd {
    ghost use Rattle.run_status.specs.declared.run_ends.RunEnd.TheVariants.{NoMemory};

    ghost from_gives = { λ _ run_end. run_end ≡ NoMemory };

    fn from(_: AllocFailed<T>) -> Self {
        RunEnd::NoMemory
    }
}

impl From<WriteFault> for RunEnd {
    ghost use Rattle.run_status.specs.declared.run_ends.RunEnd.TheVariants.{WriteFault as Refused};

    ghost from_gives = { λ _ run_end. run_end ≡ Refused };

    fn from(_: WriteFault) -> Self {
        RunEnd::WriteFault
    }
}

impl RunEnd {
    /// The exit status.
    pub fn code(self) -> u8
        ensures { result ≡ code_of (Some self) }
    {
        match self {
            RunEnd::Usage => 2,
            RunEnd::Stopped(stop) => stop.code(),
            RunEnd::ReadFault => 4,
            RunEnd::WriteFault => 5,
            RunEnd::NoMemory => 7,
            RunEnd::TurnsSpent => 11,
            RunEnd::Live(end) => end.code(),
        }
    }

    /// The line that is printed after the report; none for a failed write and for want of memory.
    pub fn text(self, alloc: Global) -> Result<String, NoMemory>
        ensures text { IfOk result (λ text. string_bytes text ≡ text_of self) }
        ensures silent { self ≡ RunEnd.WriteFault → IsOk result }
    {
        match self {
            RunEnd::Usage => String::from_str(alloc, "usage\n"),
            RunEnd::Stopped(stop) => stop.text(alloc),
            RunEnd::ReadFault => String::from_str(alloc, "read fault\n"),
            RunEnd::TurnsSpent => String::from_str(alloc, "turns spent 1000000\n"),
            RunEnd::WriteFault | RunEnd::NoMemory => Ok(String::new(alloc)),
            RunEnd::Live(end) => end.text(alloc),
        }
    }
}
