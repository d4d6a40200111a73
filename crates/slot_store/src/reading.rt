// The steps of a load.
ghost use Rattle.std.specs.Prelude.{◌≡◌, ◌≤◌, ◌+◌, length, min, OnOk, IfOk};
ghost use Rattle.std.specs.Int.{w64, from_le_bytes};
ghost use Rattle.slot_store.specs.Disks.{bytes_at, LeavesAlone, LeavesNoMore, LeavesOnly, CountsDiskFault};
ghost use Rattle.slot_store.specs.Layout.{start_of, header_at, headers_of, contents};
ghost use Rattle.plan_store.specs.Keeps.{CountsStoreFault};

use crate::headers::{HEADER_BYTES, Header, Headers, MAX_STORED, OPEN, Slot};
use crate::{Disk, DiskFault};
use plan_store::KeepFault;
use std::alloc::Global;

fn u64_of(bytes: &[u8]) -> u64
    requires { length bytes.now ≡ 8 }
    ensures { result ≡ from_le_bytes w64 bytes.now }
{
    u64::from_le_bytes([
        bytes[0], bytes[1], bytes[2], bytes[3], bytes[4], bytes[5], bytes[6], bytes[7],
    ])
}

fn read_header<D: Disk>(disk: &mut D, slot: Slot) -> Result<Header, DiskFault>
    requires { 131092 ≤ D.extent disk.old }
    ensures header { D.is_observable → IfOk result (λ header. header ≡ header_at (start_of slot) (D.seen disk.old)) }
    ensures seen { D.seen disk.new ≡ D.seen disk.old }
    ensures crash { LeavesNoMore (D.may_leave disk.old) (D.may_leave disk.new) }
    ensures any_moment { LeavesOnly D.moment D.left_since disk.old disk.new (D.may_leave disk.old) }
    ensures extent { D.extent disk.new ≡ D.extent disk.old }
    ensures faults { CountsDiskFault result (D.faults disk.old) (D.faults disk.new) }
{
    let mut bytes = [0u8; 10];
    disk.read(slot.start(), &mut bytes)?;
    Ok(Header {
        is_open: bytes[0] == OPEN,
        generation: bytes[1],
        length: u64_of(&bytes[2..10]),
    })
}

/// Syncs, and reads the headers: they are those of the one image that a crash then leaves.
pub(crate) fn look<D: Disk>(disk: &mut D) -> Result<Headers, DiskFault>
    requires { 131092 ≤ D.extent disk.old }
    ensures headers { D.is_observable → IfOk result (λ headers. headers ≡ headers_of (D.seen disk.new)) }
    ensures durable { OnOk result (LeavesAlone (D.seen disk.new) (D.may_leave disk.new)) }
    ensures crash { LeavesNoMore (D.may_leave disk.old) (D.may_leave disk.new) }
    ensures any_moment { LeavesOnly D.moment D.left_since disk.old disk.new (D.may_leave disk.old) }
    ensures extent { D.extent disk.new ≡ D.extent disk.old }
    ensures faults { CountsDiskFault result (D.faults disk.old) (D.faults disk.new) }
{
    disk.sync()?;
    Ok(Headers {
        first: read_header(disk, Slot::First)?,
        second: read_header(disk, Slot::Second)?,
    })
}

// The bytes that a slot stores, by the length in its header.
fn read_stored<D: Disk>(
    disk: &mut D,
    alloc: Global,
    slot: Slot,
    length: u64,
) -> Result<Vec<u8>, KeepFault>
    requires { 131092 ≤ D.extent disk.old }
    ensures bytes { D.is_observable → IfOk result
        (λ bytes. bytes.items ≡ bytes_at (start_of slot + 10) (min length 65536) (D.seen disk.old)) }
    ensures seen { D.seen disk.new ≡ D.seen disk.old }
    ensures crash { LeavesNoMore (D.may_leave disk.old) (D.may_leave disk.new) }
    ensures any_moment { LeavesOnly D.moment D.left_since disk.old disk.new (D.may_leave disk.old) }
    ensures extent { D.extent disk.new ≡ D.extent disk.old }
    ensures faults { CountsStoreFault result (D.faults disk.old) (D.faults disk.new) }
{
    let mut bytes = vec![in alloc; 0u8; length.min(MAX_STORED) as usize]?;
    disk.read(slot.start() + HEADER_BYTES, &mut bytes)?;
    Ok(bytes)
}

/// Reads what the current slot stores; nothing, if there is none.
pub(crate) fn read_contents<D: Disk>(
    disk: &mut D,
    alloc: Global,
    headers: &Headers,
) -> Result<Vec<u8>, KeepFault>
    requires { 131092 ≤ D.extent disk.old }
    ensures bytes { D.is_observable → headers.now ≡ headers_of (D.seen disk.old)
        → IfOk result (λ bytes. bytes.items ≡ contents (D.seen disk.old)) }
    ensures seen { D.seen disk.new ≡ D.seen disk.old }
    ensures crash { LeavesNoMore (D.may_leave disk.old) (D.may_leave disk.new) }
    ensures any_moment { LeavesOnly D.moment D.left_since disk.old disk.new (D.may_leave disk.old) }
    ensures extent { D.extent disk.new ≡ D.extent disk.old }
    ensures faults { CountsStoreFault result (D.faults disk.old) (D.faults disk.new) }
{
    match headers.current() {
        None => Ok(Vec::new(alloc)),
        Some(slot) => read_stored(disk, alloc, slot, headers.of(slot).length),
    }
}
