// Why a run over live links ends, and what is printed of it.
ghost use Rattle.std.specs.Prelude.{◌≡◌, IfOk, string_bytes};
ghost use Rattle.run_status.specs.Endings.{live_code, live_text};

use crate::NoMemory;
use std::alloc::Global;

/// Why a run of `route`, `drone` or `station` ends, other than by its inputs and its output.
#[derive(Clone, Copy)]
pub enum LiveEnd {
    /// The operation ended with this code.
    RefusedWith(u8),
    /// The operation had no end after so many ticks.
    NoAnswer(u64),
    /// A store of plans failed.
    StoreFault,
    /// A port hadn't ended after so many reads.
    PortTurns(u64),
    /// A port failed.
    PortFault,
}

impl LiveEnd {
    /// The exit status.
    pub(crate) fn code(self) -> u8
        ensures { result ≡ live_code self }
    {
        match self {
            LiveEnd::RefusedWith(_) => 8,
            LiveEnd::NoAnswer(_) => 9,
            LiveEnd::StoreFault => 10,
            LiveEnd::PortTurns(_) => 11,
            LiveEnd::PortFault => 12,
        }
    }

    pub(crate) fn text(self, alloc: Global) -> Result<String, NoMemory>
        ensures { IfOk result (λ text. string_bytes text ≡ live_text self) }
    {
        match self {
            LiveEnd::RefusedWith(code) => format!(in alloc; "refused {code}\n"),
            LiveEnd::NoAnswer(ticks) => format!(in alloc; "no answer {ticks}\n"),
            LiveEnd::StoreFault => String::from_str(alloc, "store fault\n"),
            LiveEnd::PortTurns(turns) => format!(in alloc; "turns spent {turns}\n"),
            LiveEnd::PortFault => String::from_str(alloc, "port fault\n"),
        }
    }
}
