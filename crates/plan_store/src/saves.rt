// A save that finds out what the store holds.
ghost use Rattle.std.specs.Prelude.{◌≡◌, ◌≢◌, ◌≤◌, ◌⊎◌, IfSome, length};
ghost use Rattle.mav_ports.specs.Counts.{Rose, next_count};
ghost use Rattle.plan_store.specs.Keeps.{replace_known, KeptOrReplaced};

use crate::{KeepFault, Keeper, MAX_SAVED_BYTES};

/// Which contents a store has, after a save that may have failed.
#[derive(Clone, Copy)]
pub enum Stored {
    /// The bytes given to the save, also where these are equal to the old ones.
    New,
    /// The old ones.
    Old,
}

/// Saves the new bytes in place of the old ones. If the save fails by `Store` it loads, and what
/// the load gives decides: other contents than the two are a fault of the store.
pub fn save_or_load<K: Keeper>(keeper: &mut K, old: &[u8], new: &[u8]) -> Result<Stored, KeepFault>
    requires { length new.now ≤ MAX_SAVED_BYTES }
    ensures new { result ≡ Ok Stored.New → K.contents keeper.new ≡ replace_known (K.contents keeper.old) new.now }
    ensures old { result ≡ Ok Stored.Old → K.contents keeper.new ≡ replace_known (K.contents keeper.old) old.now }
    ensures old_differ { result ≡ Ok Stored.Old → old.now ≢ new.now }
    ensures old_rose { result ≡ Ok Stored.Old → Rose (K.faults keeper.old) (K.faults keeper.new) }
    ensures fault { result ≡ Err KeepFault.Store → Rose (K.faults keeper.old) (K.faults keeper.new) }
    ensures both_failed { result ≡ Err KeepFault.Store
        → IfSome (K.contents keeper.old) (λ kept. kept ≡ old.now
        → Rose (next_count (K.faults keeper.old)) (K.faults keeper.new)) }
    ensures either { KeptOrReplaced (K.contents keeper.old) (K.contents keeper.new) new.now }
    ensures count { K.faults keeper.old ≤ K.faults keeper.new }
    ensures infallible { K.is_infallible keeper.old → K.is_infallible keeper.new
        × ((result ≡ Ok Stored.New) ⊎ (result ≡ Err KeepFault.NoMemory)) }
{
    match keeper.save(new) {
        Ok(()) => Ok(Stored::New),
        Err(KeepFault::NoMemory) => Err(KeepFault::NoMemory),
        Err(KeepFault::Store) => load_stored(keeper, old, new),
    }
}

// Which of the two a load gives.
fn load_stored<K: Keeper>(keeper: &mut K, old: &[u8], new: &[u8]) -> Result<Stored, KeepFault>
    ensures new { result ≡ Ok Stored.New → IfSome (K.contents keeper.old) (λ kept. new.now ≡ kept) }
    ensures old { result ≡ Ok Stored.Old → IfSome (K.contents keeper.old) (λ kept. old.now ≡ kept) }
    ensures old_differ { result ≡ Ok Stored.Old → old.now ≢ new.now }
    ensures fault { result ≡ Err KeepFault.Store
        → IfSome (K.contents keeper.old) (λ kept. (kept ≢ old.now) × (kept ≢ new.now))
        ⊎ Rose (K.faults keeper.old) (K.faults keeper.new) }
    ensures stays { K.contents keeper.new ≡ K.contents keeper.old }
    ensures count { K.faults keeper.old ≤ K.faults keeper.new }
{
    let loaded = keeper.load()?;
    if loaded.as_slice() == new {
        Ok(Stored::New)
    } else if loaded.as_slice() == old {
        Ok(Stored::Old)
    } else {
        Err(KeepFault::Store)
    }
}
