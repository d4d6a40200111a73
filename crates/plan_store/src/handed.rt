// A store that its caller boxed.
ghost use Rattle.std.specs.Prelude.{◌≡◌};

use crate::{KeepFault, Keeper};

/// A box is the store in it.
impl Keeper for Box<dyn Keeper> {
    ghost contents = { λ b. (Keeper-box b).contents b.value };

    ghost faults = { λ b. (Keeper-box b).faults b.value };

    ghost is_infallible = { λ b. (Keeper-box b).is_infallible b.value };

    fn load(&mut self) -> Result<Vec<u8>, KeepFault> {
        (**self).load()
    }

    fn save(&mut self, bytes: &[u8]) -> Result<(), KeepFault> {
        (**self).save(bytes)
    }
}

/// A store that was handed over, by default in a box: it passes each call on.
#[derive(Drop)]
pub struct Handed<B: Keeper = Box<dyn Keeper>> {
    keeper: B,
}

impl<B: Keeper> Handed<B> {
    pub fn new(keeper: B) -> Handed<B>
        ensures { result.keeper ≡ keeper }
    {
        Handed { keeper }
    }

    /// Gives the store back.
    pub fn back(self) -> B
        ensures { result ≡ self.keeper }
    {
        self.keeper
    }
}

impl<B: Keeper> Keeper for Handed<B> {
    ghost contents = { λ h. B.contents h.keeper };

    ghost faults = { λ h. B.faults h.keeper };

    ghost is_infallible = { λ h. B.is_infallible h.keeper };

    fn load(&mut self) -> Result<Vec<u8>, KeepFault> {
        self.keeper.load()
    }

    fn save(&mut self, bytes: &[u8]) -> Result<(), KeepFault> {
        self.keeper.save(bytes)
    }
}
