// Why words are no command line.
ghost use Rattle.std.specs.Prelude.{◌≡◌};

use std::alloc::{AllocError, AllocFailed};
use thiserror::Error;

#[derive(Clone, Copy, Debug, Error)]
pub enum WantedFault {
    #[error("the words are of no command")]
    Usage,
    #[error("out of memory")]
    NoMemory,
}

impl From<AllocError> for WantedFault {
    ghost use Rattle.command_line.specs.declared.faults.WantedFault.TheVariants.{NoMemory};

    ghost from_gives = { λ _ fault. fault ≡ NoMemory };

    fn from(_: AllocError) -> Self {
        WantedFault::NoMemory
    }
}

impl<T: Drop> From<AllocFailed<T>> for WantedFault {
    ghost use Rattle.command_line.specs.declared.faults.WantedFault.TheVariants.{NoMemory};

    ghost from_gives = { λ _ fault. fault ≡ NoMemory };

    fn from(_: AllocFailed<T>) -> Self {
        WantedFault::NoMemory
    }
}
