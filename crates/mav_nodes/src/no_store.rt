// The store of a node that stores nothing.
ghost use Rattle.std.specs.Prelude.{None, ⊤};

use plan_store::{KeepFault, Keeper, MAX_SAVED_BYTES};
use std::alloc::Global;

/// A store of which nothing is known, and nothing is asked.
#[derive(Drop)]
pub(crate) struct NoStore {
    alloc: Global,
}

impl NoStore {
    pub(crate) fn new(alloc: Global) -> NoStore {
        NoStore { alloc }
    }
}

impl Keeper for NoStore {
    ghost contents = { λ s. None };

    ghost faults = { λ s. 0 };

    ghost is_infallible = { λ s. ⊤ };

    fn load(&mut self) -> Result<Vec<u8>, KeepFault> {
        Ok(Vec::new(self.alloc))
    }

    fn save(&mut self, _bytes: &[u8]) -> Result<(), KeepFault> {
        Ok(())
    }
}
