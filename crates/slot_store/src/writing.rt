// How a save writes to the spare slot.
ghost use Rattle.std.specs.Prelude.{◌≡◌, ◌≤◌, ◌+◌, length, take, true, OnOk, IfOk};
ghost use Rattle.slot_store.specs.Disks.{SameOutside, Writes, LeavesAlone, LeavesOnly, CountsDiskFault};
ghost use Rattle.slot_store.specs.Layout.{start_of, header_at, contents, slot_body, MayClose, Closes};
ghost use Rattle.slot_store.specs.Crashes.{IsRead, HoldsEither};

use crate::headers::{HEADER_BYTES, Header, Headers, OPEN, Slot};
use crate::{Disk, DiskFault};

// Any byte but an open flag.
const CLOSED: u8 = 0;

// A slot's bytes without its flag, at most.
const MAX_BODY: usize = 65_545;

// Writes, and syncs.
fn put<D: Disk>(disk: &mut D, at: u64, bytes: &[u8]) -> Result<(), DiskFault>
    requires { at + length bytes.now ≤ D.extent disk.old }
    ensures any_moment { LeavesAlone (D.seen disk.old) (D.may_leave disk.old)
        → LeavesOnly D.moment D.left_since disk.old disk.new (SameOutside at (length bytes.now) (D.seen disk.old)) }
    ensures written { D.is_observable → OnOk result (Writes at bytes.now (D.seen disk.old) (D.seen disk.new)) }
    ensures durable { OnOk result (LeavesAlone (D.seen disk.new) (D.may_leave disk.new)) }
    ensures extent { D.extent disk.new ≡ D.extent disk.old }
    ensures faults { CountsDiskFault result (D.faults disk.old) (D.faults disk.new) }
{
    disk.write(at, bytes)?;
    disk.sync()
}

// Closes the flag of a slot that is open. A closed one isn't written: a crash could leave an open one in its place.
fn close<D: Disk>(disk: &mut D, slot: Slot, is_open: bool) -> Result<(), DiskFault>
    requires { 131092 ≤ D.extent disk.old }
    ensures any_moment { LeavesAlone (D.seen disk.old) (D.may_leave disk.old)
        → LeavesOnly D.moment D.left_since disk.old disk.new (MayClose (start_of slot) is_open (D.seen disk.old)) }
    ensures closed { D.is_observable → is_open ≡ (header_at (start_of slot) (D.seen disk.old)).is_open
        → OnOk result (Closes (start_of slot) (D.seen disk.old) (D.seen disk.new)) }
    ensures durable { LeavesAlone (D.seen disk.old) (D.may_leave disk.old)
        → OnOk result (LeavesAlone (D.seen disk.new) (D.may_leave disk.new)) }
    ensures extent { D.extent disk.new ≡ D.extent disk.old }
    ensures faults { CountsDiskFault result (D.faults disk.old) (D.faults disk.new) }
{
    if is_open {
        put(disk, slot.start(), &[CLOSED])
    } else {
        Ok(())
    }
}

// Puts a slot's bytes, without its flag, at the start of the buffer.
fn fill(body: &mut [u8; MAX_BODY], generation: u8, bytes: &[u8])
    requires { length bytes.now ≤ 65536 }
    ensures { take (9 + length bytes.now) body.new ≡ slot_body generation bytes.now }
{
    body[0] = generation;
    body[1..9].copy_from_slice(&(bytes.len() as u64).to_le_bytes());
    body[9..9 + bytes.len()].copy_from_slice(bytes);
}

// Writes all of a slot but its flag, in one write.
fn stage<D: Disk>(disk: &mut D, slot: Slot, generation: u8, bytes: &[u8]) -> Result<(), DiskFault>
    requires room { 131092 ≤ D.extent disk.old }
    requires fits { length bytes.now ≤ 65536 }
    ensures any_moment { LeavesAlone (D.seen disk.old) (D.may_leave disk.old)
        → LeavesOnly D.moment D.left_since disk.old disk.new
        (SameOutside (start_of slot + 1) (9 + length bytes.now) (D.seen disk.old)) }
    ensures written { D.is_observable → OnOk result
        (Writes (start_of slot + 1) (slot_body generation bytes.now) (D.seen disk.old) (D.seen disk.new)) }
    ensures durable { OnOk result (LeavesAlone (D.seen disk.new) (D.may_leave disk.new)) }
    ensures extent { D.extent disk.new ≡ D.extent disk.old }
    ensures faults { CountsDiskFault result (D.faults disk.old) (D.faults disk.new) }
{
    let mut body = [0u8; MAX_BODY];
    fill(&mut body, generation, bytes);
    put(disk, slot.start() + 1, &body[..9 + bytes.len()])
}

/// Writes these bytes and a new generation into the spare slot: closes its flag, writes the rest, and opens it.
pub(crate) fn write_slot<D: Disk>(
    disk: &mut D,
    headers: &Headers,
    bytes: &[u8],
) -> Result<Headers, DiskFault>
    requires room { 131092 ≤ D.extent disk.old }
    requires fits { length bytes.now ≤ 65536 }
    ensures any_moment { D.is_observable → IsRead headers.now (D.seen disk.old) (D.may_leave disk.old)
        → LeavesOnly D.moment D.left_since disk.old disk.new (HoldsEither (contents (D.seen disk.old)) bytes.now) }
    ensures saved { D.is_observable → IsRead headers.now (D.seen disk.old) (D.may_leave disk.old)
        → IfOk result (λ after. IsRead after (D.seen disk.new) (D.may_leave disk.new)
        × (contents (D.seen disk.new) ≡ bytes.now)) }
    ensures extent { D.extent disk.new ≡ D.extent disk.old }
    ensures faults { CountsDiskFault result (D.faults disk.old) (D.faults disk.new) }
{
    let slot = headers.spare();
    let generation = headers.new_generation();
    close(disk, slot, headers.of(slot).is_open)?;
    stage(disk, slot, generation, bytes)?;
    put(disk, slot.start(), &[OPEN])?;
    let header = Header {
        is_open: true,
        generation,
        length: bytes.len() as u64,
    };
    Ok(headers.with(slot, header))
}
