// What a store of plans returns, and what it holds then.
ghost use Rattle.std.specs.Prelude.{◌≡◌, ◌≤◌, List, ℕ, length};
ghost use Rattle.std.specs.declared.option.Option.{Option};

use std::alloc::AllocError;

/// The most bytes that one save may be given.
pub const MAX_SAVED_BYTES: usize = 65_536;

/// Why a store didn't load or save.
#[derive(Clone, Copy)]
pub enum KeepFault {
    /// The store failed.
    Store,
    /// There was no memory.
    NoMemory,
}

impl From<AllocError> for KeepFault {
    ghost use Rattle.plan_store.specs.declared.keepers.KeepFault.TheVariants.{NoMemory};

    ghost from_gives = { λ _ fault. fault ≡ NoMemory };

    fn from(_: AllocError) -> Self {
        KeepFault::NoMemory
    }
}

/// A store of one sequence of bytes: its contents.
pub trait Keeper: Send + Drop {
    ghost use Rattle.std.specs.Prelude.{IfSome, IfOk, OnOk, OnErr};
    ghost use Rattle.plan_store.specs.Keeps.{replace_known, KeptOrReplaced, CountsStoreFault, IsNotStoreFault};

    /// The contents, if they are known.
    ghost contents: { Self → Option (List ℕ) };

    /// How many calls failed by `Store`. It never falls, and stays at 2^64 - 1.
    ghost faults: { Self → ℕ };

    /// No call fails by `Store`, now or later.
    ghost is_infallible: { Self → Type 0 };

    /// Returns the contents, which may be longer than what a save may be given: a store may
    /// begin with any.
    fn load(&mut self) -> Result<Vec<u8>, KeepFault>
        ensures bytes { IfSome (contents self.old) (λ kept. IfOk result (λ loaded. loaded.items ≡ kept)) }
        ensures stays { contents self.new ≡ contents self.old }
        ensures faults { CountsStoreFault result (faults self.old) (faults self.new) }
        ensures infallible { is_infallible self.old → is_infallible self.new × IsNotStoreFault result };

    /// Replaces the contents by these bytes. At an error they are the old ones or these, and only
    /// a load tells which.
    fn save(&mut self, bytes: &[u8]) -> Result<(), KeepFault>
        requires { length bytes.now ≤ MAX_SAVED_BYTES }
        ensures saved { OnOk result (contents self.new ≡ replace_known (contents self.old) bytes.now) }
        ensures either { OnErr result (KeptOrReplaced (contents self.old) (contents self.new) bytes.now) }
        ensures faults { CountsStoreFault result (faults self.old) (faults self.new) }
        ensures infallible { is_infallible self.old → is_infallible self.new × IsNotStoreFault result };
}
