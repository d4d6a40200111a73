// Why a server isn't made, and why a client doesn't begin.
use std::alloc::{AllocError, AllocFailed};

/// Why a list of parameters is no server's: the first reason that applies, in the order of the variants.
#[derive(Clone, Copy)]
pub enum ParamFault {
    /// There are so many, more than 1,000.
    TooMany { count: usize },
    /// This is the first index of a parameter whose type isn't one of `ParamServer`.
    BadType { at: usize },
    /// This is the first index of a parameter with the id of an earlier one.
    TwiceId { at: usize },
    /// There was no memory for the ids.
    NoMemory,
}

impl From<AllocError> for ParamFault {
    ghost use Rattle.std.specs.Prelude.{◌≡◌};
    ghost use Rattle.param_proto.specs.declared.faults.ParamFault.TheVariants.{NoMemory};

    ghost from_gives = { λ _ fault. fault ≡ NoMemory };

    fn from(_refused: AllocError) -> ParamFault {
        ParamFault::NoMemory
    }
}

impl<T: Drop> From<AllocFailed<T>> for ParamFault {
    ghost use Rattle.std.specs.Prelude.{◌≡◌};
    ghost use Rattle.param_proto.specs.declared.faults.ParamFault.TheVariants.{NoMemory};

    ghost from_gives = { λ _ fault. fault ≡ NoMemory };

    fn from(_refused: AllocFailed<T>) -> ParamFault {
        ParamFault::NoMemory
    }
}

/// An operation of the client is open.
#[derive(Clone, Copy)]
pub struct ParamBusy;
