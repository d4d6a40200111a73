// Why bytes are no plans.
use std::alloc::AllocError;

/// Why the plans of a stored image can't be had.
#[derive(Clone, Copy)]
pub enum KeptFault {
    /// The bytes are no stored image of this drone.
    BadKept,
    NoMemory,
}

impl From<AllocError> for KeptFault {
    ghost use Rattle.std.specs.Prelude.{◌≡◌};
    ghost use Rattle.plan_image.specs.declared.faults.KeptFault.TheVariants.{NoMemory};

    ghost from_gives = { λ _ fault. fault ≡ NoMemory };

    fn from(_: AllocError) -> KeptFault {
        KeptFault::NoMemory
    }
}
