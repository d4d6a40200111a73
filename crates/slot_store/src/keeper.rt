// The store over a disk.
ghost use Rattle.std.specs.Prelude.{◌≡◌, ◌≤◌, None, length, IfOk, IfErr, OnOk, false, true};
ghost use Rattle.mav_ports.specs.Counts.{Rose};
ghost use Rattle.plan_store.specs.Keeps.{CountsStoreFault};
ghost use Rattle.slot_store.specs.Disks.{LeavesAlone, LeavesNoMore, LeavesOnly, CountsDiskFault};
ghost use Rattle.slot_store.specs.Layout.{contents, is_foreign};
ghost use Rattle.slot_store.specs.Crashes.{MayHold, Holds, HoldsAsBefore, HoldsAsBeforeOr, IsRead, IsSound};

use crate::headers::Headers;
use crate::reading::{look, read_contents};
use crate::writing::write_slot;
use crate::{Disk, DiskFault};
use plan_store::{KeepFault, Keeper, MAX_SAVED_BYTES};
use std::alloc::Global;

/// Why a disk didn't open as a store.
#[derive(Clone, Copy)]
pub enum SlotWhy {
    /// The disk failed.
    Store,
    /// What it holds isn't the work of a store: an open slot has a generation above 2 or a length above 65,536, or
    /// both slots are open and of one generation.
    Foreign,
}

/// A disk that didn't open as a store, and why.
#[derive(Drop)]
pub struct SlotFault<D: Disk> {
    pub why: SlotWhy,
    pub disk: D,
}

/// A store in two slots of a disk: it keeps its contents in one and saves into the other.
#[derive(Drop)]
pub struct SlotKeeper<D: Disk> {
    alloc: Global,
    disk: D,
    known: Option<Headers>,
    ghost room: { 131092 ≤ D.extent disk },
    ghost sound: { D.is_observable → IsSound (D.seen disk) (D.may_leave disk) known },
}

impl<D: Disk> SlotKeeper<D> {
    /// Syncs first.
    pub fn open(alloc: Global, disk: D) -> Result<SlotKeeper<D>, SlotFault<D>>
        requires { 131092 ≤ D.extent disk }
        // One of the images that a crash could leave is what each crash leaves now, and it isn't foreign, or it is.
        ensures opened { D.is_observable → IfOk result (λ keeper. D.may_leave disk (D.seen keeper.disk)
            × LeavesAlone (D.seen keeper.disk) (D.may_leave keeper.disk) × (is_foreign (D.seen keeper.disk) ≡ false)) }
        ensures foreign { D.is_observable → IfErr result
            (λ fault. fault.why ≡ SlotWhy.Foreign → D.may_leave disk (D.seen fault.disk)
            × LeavesAlone (D.seen fault.disk) (D.may_leave fault.disk) × (is_foreign (D.seen fault.disk) ≡ true)) }
        // A crash at any moment leaves what one could leave before.
        ensures any_moment { IfOk result (λ keeper. LeavesOnly D.moment D.left_since disk keeper.disk
            (D.may_leave disk)) }
        ensures any_moment_fault { IfErr result (λ fault. LeavesOnly D.moment D.left_since disk fault.disk
            (D.may_leave disk)) }
        ensures faults { IfOk result (λ keeper. D.faults keeper.disk ≡ D.faults disk) }
        ensures failed { IfErr result (λ fault. fault.why ≡ SlotWhy.Store
            → Rose (D.faults disk) (D.faults fault.disk)) }
        ensures not_failed { IfErr result (λ fault. fault.why ≡ SlotWhy.Foreign
            → D.faults fault.disk ≡ D.faults disk) }
    {
        let mut disk = disk;
        match look(&mut disk) {
            Err(_) => Err(SlotFault {
                why: SlotWhy::Store,
                disk,
            }),
            Ok(headers) if headers.are_foreign() => Err(SlotFault {
                why: SlotWhy::Foreign,
                disk,
            }),
            Ok(headers) => Ok(SlotKeeper {
                alloc,
                disk,
                known: Some(headers),
            }),
        }
    }

    /// Gives the disk back.
    pub fn close(self) -> D
        ensures { result ≡ self.disk }
    {
        self.disk
    }

    /// Returns the contents. Until the next save each crash leaves what it returned. Want of memory is met before the
    /// contents are read, and changes nothing.
    pub fn load(&mut self) -> Result<Vec<u8>, KeepFault>
        // A crash could leave before what each crash leaves from now on.
        ensures loaded { D.is_observable → IfOk result
            (λ bytes. MayHold (D.may_leave self.old.disk) bytes.items
            × Holds (D.may_leave self.new.disk) bytes.items) }
        // A crash at any moment leaves contents that one could leave before.
        ensures any_moment { D.is_observable → LeavesOnly D.moment D.left_since self.old.disk self.new.disk
            (HoldsAsBefore (D.may_leave self.old.disk)) }
        ensures faults { CountsStoreFault result (D.faults self.old.disk) (D.faults self.new.disk) }
    {
        self.known = None;
        let headers = look(&mut self.disk)?;
        self.known = Some(headers);
        read_contents(&mut self.disk, self.alloc, &headers)
    }

    /// Saves the bytes as the new contents. It takes no memory.
    pub fn save(&mut self, bytes: &[u8]) -> Result<(), KeepFault>
        requires { length bytes.now ≤ MAX_SAVED_BYTES }
        // Each crash leaves them from now on.
        ensures saved { D.is_observable → OnOk result (Holds (D.may_leave self.new.disk) bytes.now) }
        // A crash at any moment leaves contents that one could leave before, or these.
        ensures any_moment { D.is_observable → LeavesOnly D.moment D.left_since self.old.disk self.new.disk
            (HoldsAsBeforeOr bytes.now (D.may_leave self.old.disk)) }
        ensures memory { result ≡ Err KeepFault.NoMemory → ⊥ }
        ensures faults { CountsStoreFault result (D.faults self.old.disk) (D.faults self.new.disk) }
    {
        let headers = self.settle()?;
        self.known = None;
        let after = write_slot(&mut self.disk, &headers, bytes)?;
        self.known = Some(after);
        Ok(())
    }

    // The headers of the one image that a crash leaves. After a failed call the steps of a load find them.
    fn settle(&mut self) -> Result<Headers, DiskFault>
        ensures read { D.is_observable → IfOk result
            (λ headers. IsRead headers (D.seen self.new.disk) (D.may_leave self.new.disk)) }
        ensures crash { LeavesNoMore (D.may_leave self.old.disk) (D.may_leave self.new.disk) }
        ensures any_moment { LeavesOnly D.moment D.left_since self.old.disk self.new.disk (D.may_leave self.old.disk) }
        ensures faults { CountsDiskFault result (D.faults self.old.disk) (D.faults self.new.disk) }
    {
        match self.known {
            Some(headers) => Ok(headers),
            None => look(&mut self.disk),
        }
    }
}

impl<D: Disk + Send> Keeper for SlotKeeper<D> {
    ghost contents = { λ s. None };

    ghost faults = { λ s. D.faults s.disk };

    ghost is_infallible = { λ s. ⊥ };

    fn load(&mut self) -> Result<Vec<u8>, KeepFault>
        ensures loaded { D.is_observable → IfOk result
            (λ bytes. MayHold (D.may_leave self.old.disk) bytes.items
            × Holds (D.may_leave self.new.disk) bytes.items) }
        ensures any_moment { D.is_observable → LeavesOnly D.moment D.left_since self.old.disk self.new.disk
            (HoldsAsBefore (D.may_leave self.old.disk)) }
        ensures faults { CountsStoreFault result (D.faults self.old.disk) (D.faults self.new.disk) }
    {
        SlotKeeper::load(self)
    }

    fn save(&mut self, bytes: &[u8]) -> Result<(), KeepFault>
        requires { length bytes.now ≤ MAX_SAVED_BYTES }
        ensures saved { D.is_observable → OnOk result (Holds (D.may_leave self.new.disk) bytes.now) }
        ensures any_moment { D.is_observable → LeavesOnly D.moment D.left_since self.old.disk self.new.disk
            (HoldsAsBeforeOr bytes.now (D.may_leave self.old.disk)) }
        ensures memory { result ≡ Err KeepFault.NoMemory → ⊥ }
        ensures faults { CountsStoreFault result (D.faults self.old.disk) (D.faults self.new.disk) }
    {
        SlotKeeper::save(self, bytes)
    }
}
