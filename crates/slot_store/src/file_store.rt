// A store in a file of the system.
ghost use Rattle.std.specs.Prelude.{◌≡◌, None, IfOk};
ghost use Rattle.plan_store.specs.Keeps.{CountsFault};

use crate::file_disk::open_or_make;
use crate::{FileDisk, NoMemory, SlotKeeper};
use plan_store::{KeepFault, Keeper};
use std::alloc::AllocError;
use std::io::ErrorKind;

/// A store in two slots of a file. It says nothing of its contents. If the file can't be opened, has another size or
/// isn't the work of a store, each call fails by `Store`.
#[derive(Drop)]
pub struct FileStore {
    slots: Option<SlotKeeper<FileDisk>>,
    faults: u64,
}

impl FileStore {
    /// The file is made if it doesn't exist.
    pub fn open(rt: &HostRuntime, path: &str) -> Result<FileStore, NoMemory>
        ensures { IfOk result (λ store. store.faults ≡ 0) }
    {
        let slots = match open_or_make(rt, path) {
            Ok(file) => SlotKeeper::open(rt.alloc(), FileDisk::new(file)).ok(),
            Err(error) if error.kind() == ErrorKind::OutOfMemory => return Err(AllocError),
            Err(_) => None,
        };
        Ok(FileStore { slots, faults: 0 })
    }

    // Counts the fault of a call.
    fn fault(&mut self, fault: KeepFault) -> KeepFault
        ensures { CountsFault result self.old.faults self.new.faults }
    {
        if let KeepFault::Store = fault {
            self.faults = self.faults.saturating_add(1);
        }
        fault
    }
}

impl Keeper for FileStore {
    ghost contents = { λ s. None };

    ghost faults = { λ s. s.faults };

    ghost is_infallible = { λ s. ⊥ };

    fn load(&mut self) -> Result<Vec<u8>, KeepFault> {
        let loaded = match &mut self.slots {
            Some(slots) => slots.load(),
            None => Err(KeepFault::Store),
        };
        match loaded {
            Ok(bytes) => Ok(bytes),
            Err(fault) => Err(self.fault(fault)),
        }
    }

    fn save(&mut self, bytes: &[u8]) -> Result<(), KeepFault> {
        let saved = match &mut self.slots {
            Some(slots) => slots.save(bytes),
            None => Err(KeepFault::Store),
        };
        match saved {
            Ok(()) => Ok(()),
            Err(fault) => Err(self.fault(fault)),
        }
    }
}
