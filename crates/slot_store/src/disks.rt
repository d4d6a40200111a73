// A disk: what a read returns, and what a crash may leave.
ghost use Rattle.std.specs.Prelude.{◌≡◌, ◌≤◌, ◌+◌, List, ℕ, length};

use plan_store::KeepFault;

/// The disk failed.
#[derive(Clone, Copy)]
pub struct DiskFault;

impl From<DiskFault> for KeepFault {
    ghost use Rattle.plan_store.specs.declared.keepers.KeepFault.TheVariants.{Store};

    ghost from_gives = { λ _ fault. fault ≡ Store };

    fn from(_: DiskFault) -> Self {
        KeepFault::Store
    }
}

/// A device of a fixed number of bytes. Between two syncs a crash may leave any bytes in each range that was written,
/// whether the write failed or not, and the same bytes outside.
pub trait Disk: Drop {
    ghost use Rattle.std.specs.Prelude.{OnOk};
    ghost use Rattle.slot_store.specs.Disks.{bytes_at, Writes, Tears, LeavesNoMore, LeavesAlone, Elapses};
    ghost use Rattle.slot_store.specs.Disks.{CountsDiskFault};

    /// What its bytes are is observable: a disk over a real file promises nothing of them.
    ghost is_observable: { Type 0 };

    /// How many bytes it has.
    ghost extent: { Self → ℕ };

    /// The bytes that a read returns.
    ghost seen: { Self → List ℕ };

    /// What a crash at this moment may leave.
    ghost may_leave: { Self → List ℕ → Type 0 };

    /// The moment, as a number that doesn't fall.
    ghost moment: { Self → ℕ };

    /// What a crash at some moment from that one on might have left, during a call or between two.
    ghost left_since: { Self → ℕ → List ℕ → Type 0 };

    /// How many calls failed. It never falls, and stays at 2^64 - 1.
    ghost faults: { Self → ℕ };

    fn size(&self) -> u64
        ensures { result ≡ extent self.now };

    /// Reads the bytes from this offset on.
    fn read(&mut self, at: u64, out: &mut [u8]) -> Result<(), DiskFault>
        requires { at + length out.old ≤ extent self.old }
        ensures bytes { is_observable → OnOk result (out.new ≡ bytes_at at (length out.old) (seen self.old)) }
        ensures seen { seen self.new ≡ seen self.old }
        ensures crash { LeavesNoMore (may_leave self.old) (may_leave self.new) }
        ensures time { Elapses (moment self.old) (moment self.new) (left_since self.old) (left_since self.new)
            (may_leave self.new) }
        ensures extent { extent self.new ≡ extent self.old }
        ensures faults { CountsDiskFault result (faults self.old) (faults self.new) };

    /// Writes bytes from this offset on. Until a sync, a crash may leave any bytes in their place.
    fn write(&mut self, at: u64, bytes: &[u8]) -> Result<(), DiskFault>
        requires { at + length bytes.now ≤ extent self.old }
        ensures written { is_observable → OnOk result (Writes at bytes.now (seen self.old) (seen self.new)) }
        ensures crash { Tears at (length bytes.now) (may_leave self.old) (may_leave self.new) }
        ensures time { Elapses (moment self.old) (moment self.new) (left_since self.old) (left_since self.new)
            (may_leave self.new) }
        ensures extent { extent self.new ≡ extent self.old }
        ensures faults { CountsDiskFault result (faults self.old) (faults self.new) };

    /// Makes what was written durable: after it, a crash leaves what a read returns.
    fn sync(&mut self) -> Result<(), DiskFault>
        ensures durable { OnOk result (LeavesAlone (seen self.new) (may_leave self.new)) }
        ensures seen { OnOk result (seen self.new ≡ seen self.old) }
        ensures crash { LeavesNoMore (may_leave self.old) (may_leave self.new) }
        ensures time { Elapses (moment self.old) (moment self.new) (left_since self.old) (left_since self.new)
            (may_leave self.new) }
        ensures extent { extent self.new ≡ extent self.old }
        ensures faults { CountsDiskFault result (faults self.old) (faults self.new) };

    /// What a read returns is one of the images that a crash may leave.
    ghost seen_may_be_left: { (disk : Self) → is_observable → may_leave disk (seen disk) };

    /// It has as many bytes as it says.
    ghost has_its_size: { (disk : Self) → is_observable → length (seen disk) ≡ extent disk };

    /// This moment is one of those since an earlier one.
    ghost counts_now: { (disk : Self) (t : ℕ) (c : List ℕ) → t ≤ moment disk → may_leave disk c
        → left_since disk t c };

    /// Since this moment there is no other.
    ghost only_now: { (disk : Self) (c : List ℕ) → left_since disk (moment disk) c → may_leave disk c };
}
