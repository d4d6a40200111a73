// The store that words name.
ghost use Rattle.std.specs.Prelude.{◌≡◌, IfOk, not};
ghost use Rattle.command_line.specs.Forms.{is_stdin};
ghost use Rattle.real_ports.specs.Opened.{is_in_file};

use crate::NoMemory;
use plan_store::{FailKeeper, KeepFault, Keeper};
use slot_store::FileStore;

/// A store over a file, or one of which each call fails.
pub enum RealStore {
    File(FileStore),
    Failing(FailKeeper),
}

// By hand, so that whoever boxes a store proves one call for its drop.
impl Drop for RealStore {
    fn drop(self) {
        match self {
            RealStore::File(_store) => {}
            RealStore::Failing(_store) => {}
        }
    }
}

/// It is the store in it.
impl Keeper for RealStore {
    ghost use Rattle.real_ports.specs.declared.stores.RealStore.TheVariants.{File, Failing};

    ghost contents = { elim [
      | File store ↦ ⟦<FileStore as Keeper>⟧.contents store
      | Failing store ↦ ⟦<FailKeeper as Keeper>⟧.contents store
    ] };

    ghost faults = { elim [
      | File store ↦ ⟦<FileStore as Keeper>⟧.faults store
      | Failing store ↦ ⟦<FailKeeper as Keeper>⟧.faults store
    ] };

    ghost is_infallible = { elim [
      | File store ↦ ⟦<FileStore as Keeper>⟧.is_infallible store
      | Failing store ↦ ⟦<FailKeeper as Keeper>⟧.is_infallible store
    ] };

    fn load(&mut self) -> Result<Vec<u8>, KeepFault> {
        match self {
            RealStore::File(store) => store.load(),
            RealStore::Failing(store) => store.load(),
        }
    }

    fn save(&mut self, bytes: &[u8]) -> Result<(), KeepFault> {
        match self {
            RealStore::File(store) => store.save(bytes),
            RealStore::Failing(store) => store.save(bytes),
        }
    }
}

/// Opens the store in the file of that name, and not in standard input, which is `-` and fails at each call.
pub fn open_store(rt: &HostRuntime, name: &str) -> Result<RealStore, NoMemory>
    ensures faults { IfOk result (λ store. ⟦<RealStore as Keeper>⟧.faults store ≡ 0) }
    ensures kind { IfOk result (λ store. is_in_file store ≡ not (is_stdin name.now)) }
{
    if name == "-" {
        return Ok(RealStore::Failing(FailKeeper::new()));
    }
    Ok(RealStore::File(FileStore::open(rt, name)?))
}
