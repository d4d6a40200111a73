// A store that fails.
ghost use Rattle.std.specs.Prelude.{◌≡◌, ◌≤◌, None, length};
ghost use Rattle.mav_ports.specs.Counts.{next_count};

use crate::{KeepFault, Keeper, MAX_SAVED_BYTES};

/// A store whose every call fails by `Store`, as for a file that can't be used. It says nothing of
/// its contents.
#[derive(Drop)]
pub struct FailKeeper {
    faults: u64,
}

impl FailKeeper {
    pub fn new() -> FailKeeper
        ensures { ⟦<FailKeeper as Keeper>⟧.faults result ≡ 0 }
    {
        FailKeeper { faults: 0 }
    }
}

impl Keeper for FailKeeper {
    ghost contents = { λ s. None };

    ghost faults = { λ s. s.faults };

    ghost is_infallible = { λ s. ⊥ };

    fn load(&mut self) -> Result<Vec<u8>, KeepFault>
        ensures fails { result ≡ Err KeepFault.Store }
        ensures faults { self.new.faults ≡ next_count self.old.faults }
    {
        self.faults = self.faults.saturating_add(1);
        Err(KeepFault::Store)
    }

    fn save(&mut self, _bytes: &[u8]) -> Result<(), KeepFault>
        requires { length _bytes.now ≤ MAX_SAVED_BYTES }
        ensures fails { result ≡ Err KeepFault.Store }
        ensures faults { self.new.faults ≡ next_count self.old.faults }
    {
        self.faults = self.faults.saturating_add(1);
        Err(KeepFault::Store)
    }
}
