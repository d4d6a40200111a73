// A disk in memory.
ghost use Rattle.std.specs.Prelude.{◌≡◌, ◌<◌, ◌≤◌, ◌+◌, ◌^◌, ⊤, ℕ, List, [], ◌∷◌, ◌++◌, Some, None, ◌%◌};
ghost use Rattle.std.specs.Prelude.{if◌then◌else◌, false, length, IfOk, OnOk, OnErr};
ghost use Rattle.std.proofs.Common.{inl, refl};
ghost use Rattle.mav_ports.specs.Calls.{call_after};
ghost use Rattle.mav_ports.specs.Counts.{next_count};
ghost use Rattle.slot_store.specs.Disks.{bytes_at, SameOutside, Writes, Tears, LeavesNoMore, LeavesAlone};
ghost use Rattle.slot_store.specs.Disks.{CountsDiskFault};
ghost use Rattle.slot_store.specs.MemDisks.{IsImage, IsRecorded, LeftSince, drawn, drawn_byte, next_state, only_image};
ghost use Rattle.slot_store.specs.MemDisks.{own_image, fails_at};

use crate::unsynced::{Moment, Range, is_covered};
use crate::{Disk, DiskFault};
use std::alloc::{AllocError, Global};

/// A disk in memory, which fails at chosen calls. A write that fails writes nothing, and leaves its range as one that
/// isn't synced does. It keeps what it was before each call.
#[derive(Drop)]
pub struct MemDisk {
    alloc: Global,
    bytes: Vec<u8>,
    ranges: Vec<Range>,
    past: Vec<Moment>,
    fails: Vec<u64>,
    stop: Option<u64>,
    call: Option<u64>,
    faults: u64,
}

impl MemDisk {
    /// Calls are numbered from 0: it fails at those in `fails`, and at each from `stop` on.
    pub fn new(alloc: Global, bytes: Vec<u8>, fails: Vec<u64>, stop: u64) -> MemDisk
        ensures bytes { result.bytes.items ≡ bytes.items }
        ensures synced { result.ranges.items ≡ [] }
        ensures fails { result.fails.items ≡ fails.items }
        ensures stop { result.stop ≡ Some stop }
        ensures call { result.call ≡ Some 0 }
        ensures faults { result.faults ≡ 0 }
    {
        MemDisk {
            alloc,
            bytes,
            ranges: Vec::new(alloc),
            past: Vec::new(alloc),
            fails,
            stop: Some(stop),
            call: Some(0),
            faults: 0,
        }
    }

    /// What a read returns.
    pub fn bytes(&self) -> &[u8]
        ensures { result.now ≡ self.now.bytes.items }
    {
        &self.bytes
    }

    /// What a crash leaves, as a disk with no call that fails: the bytes of ranges that weren't synced are the low 8
    /// bits of numbers drawn one after another, the first after `pick`.
    pub fn crash(self, pick: u64) -> Result<MemDisk, AllocError>
        ensures drawn { IfOk result (λ disk. disk.bytes.items
            ≡ drawn (pick % 2 ^ 31) self.ranges.items 0 self.bytes.items) }
        ensures may_be_left { IfOk result (λ disk. IsImage self.bytes.items self.ranges.items disk.bytes.items) }
        ensures synced { IfOk result (λ disk. disk.ranges.items ≡ []) }
        ensures fails { IfOk result (λ disk. disk.fails.items ≡ []) }
        ensures stop { IfOk result (λ disk. disk.stop ≡ None) }
        ensures faults { IfOk result (λ disk. disk.faults ≡ 0) }
    {
        let image = draw(self.alloc, pick, &self.bytes, &self.ranges)?;
        let mut disk = MemDisk::new(self.alloc, image, Vec::new(self.alloc), 0);
        disk.stop = None;
        Ok(disk)
    }

    // Whether the next call is to fail.
    fn fails_next(&self) -> bool
        ensures { result ≡ fails_at self.now.fails.items self.now.stop self.now.call }
    {
        match self.call {
            Some(call) => {
                self.fails.contains(&call)
                    || match self.stop {
                        Some(stop) => stop <= call,
                        None => false,
                    }
            }
            None => false,
        }
    }

    // A call failed.
    fn fault(&mut self) -> DiskFault
        ensures { self.new ≡ record self.old { faults = next_count self.old.faults } }
    {
        self.faults = self.faults.saturating_add(1);
        DiskFault
    }

    // Counts the next call and records what is there before it. Returns whether that call is to fail.
    fn begin(&mut self) -> Result<bool, DiskFault>
        ensures fails { IfOk result (λ fails. fails ≡ fails_at self.old.fails.items self.old.stop self.old.call) }
        ensures bytes { self.new.bytes ≡ self.old.bytes }
        ensures ranges { self.new.ranges ≡ self.old.ranges }
        ensures listed { self.new.fails ≡ self.old.fails }
        ensures stop { self.new.stop ≡ self.old.stop }
        ensures call { self.new.call ≡ call_after self.old.call }
        ensures past { OnOk result (IsRecorded self.old.bytes.items self.old.ranges.items self.old.past.items
            self.new.past.items) }
        ensures past_err { OnErr result (self.new.past.items ≡ self.old.past.items) }
        ensures faults { CountsDiskFault result self.old.faults self.new.faults }
    {
        let fails = self.fails_next();
        self.call = self.call.and_then(|call| call.checked_add(1));
        match record(self.alloc, &mut self.past, &self.bytes, &self.ranges) {
            Ok(()) => Ok(fails),
            Err(_) => Err(self.fault()),
        }
    }
}

// Adds what is there to the record.
fn record(
    alloc: Global,
    past: &mut Vec<Moment>,
    bytes: &Vec<u8>,
    ranges: &Vec<Range>,
) -> Result<(), AllocError>
    ensures ok { OnOk result (IsRecorded bytes.now.items ranges.now.items past.old.items past.new.items) }
    ensures err { OnErr result (past.new.items ≡ past.old.items) }
{
    past.push(Moment {
        bytes: bytes.to_vec(alloc)?,
        ranges: ranges.to_vec(alloc)?,
    })?;
    Ok(())
}

// The generator's state after one more number.
fn next_state(state: u64) -> u64
    requires { state < 2 ^ 31 }
    ensures next { result ≡ next_state state }
    ensures small { result < 2 ^ 31 }
{
    (state * 1_103_515_245 + 12_345) % (1 << 31)
}

// Adds the byte, or one that is drawn. Returns the generator's state.
fn draw_one(image: &mut Vec<u8>, state: u64, byte: u8, is_drawn: bool) -> Result<u64, AllocError>
    requires { state < 2 ^ 31 }
    ensures state { IfOk result (λ next. next ≡ (if is_drawn then next_state state else state)) }
    ensures image { OnOk result (image.new.items ≡ image.old.items
        ++ (if is_drawn then drawn_byte (next_state state) else byte) ∷ []) }
    ensures small { IfOk result (λ next. next < 2 ^ 31) }
{
    if !is_drawn {
        image.push(byte)?;
        return Ok(state);
    }
    let next = next_state(state);
    image.push((next / 65_536 % 256) as u8)?;
    Ok(next)
}

// The bytes, with those in the ranges drawn.
fn draw(
    alloc: Global,
    pick: u64,
    bytes: &Vec<u8>,
    ranges: &Vec<Range>,
) -> Result<Vec<u8>, AllocError>
    ensures { IfOk result (λ image. image.items ≡ drawn (pick % 2 ^ 31) ranges.now.items 0 bytes.now.items) }
{
    let mut image = Vec::new(alloc);
    let mut state = pick % (1 << 31);
    for offset in 0..bytes.len() {
        let is_drawn = is_covered(ranges, offset as u64);
        state = draw_one(&mut image, state, bytes[offset], is_drawn)?;
    }
    Ok(image)
}

// Adds a range that isn't synced.
fn mark(ranges: &mut Vec<Range>, at: u64, len: u64) -> Result<(), AllocError>
    requires { at + len < 2 ^ 64 }
    ensures torn { (held : List ℕ) → at + len ≤ length held
        → Tears at len (IsImage held ranges.old.items) (IsImage held ranges.new.items) }
    ensures written { OnOk result ((held now : List ℕ) → at + len ≤ length held → SameOutside at len held now
        → Tears at len (IsImage held ranges.old.items) (IsImage now ranges.new.items)) }
{
    ranges.push(Range {
        start: at,
        end: at + len,
    })?;
    Ok(())
}

// Puts the bytes in the place of those from this offset on.
fn replace(held: &mut Vec<u8>, at: usize, bytes: &[u8])
    requires { at + length bytes.now ≤ length held.old.items }
    ensures { Writes at bytes.now held.old.items held.new.items }
{
    held[at..at + bytes.len()].copy_from_slice(bytes);
}

impl Disk for MemDisk {
    ghost use Rattle.slot_store.specs.MemCalls.{MemCall};

    ghost is_observable = { ⊤ };

    ghost extent = { λ d. length d.bytes.items };

    ghost seen = { λ d. d.bytes.items };

    ghost may_leave = { λ d c. IsImage d.bytes.items d.ranges.items c };

    ghost moment = { λ d. length d.past.items };

    ghost left_since = { λ d t c. LeftSince d.bytes.items d.ranges.items d.past.items t c };

    ghost faults = { λ d. d.faults };

    ghost seen_may_be_left = { λ d observable. own_image d.bytes.items d.ranges.items };

    ghost has_its_size = { λ d observable. refl };

    ghost counts_now = { λ d t c le now. inl now };

    ghost only_now = { λ d c left. only_image d.past.items d.bytes.items d.ranges.items c left };

    fn size(&self) -> u64 {
        self.bytes.len() as u64
    }

    fn read(&mut self, at: u64, out: &mut [u8]) -> Result<(), DiskFault>
        requires { at + length out.old ≤ length self.old.bytes.items }
        ensures bytes { OnOk result (out.new ≡ bytes_at at (length out.old) self.old.bytes.items) }
        ensures seen { self.new.bytes.items ≡ self.old.bytes.items }
        ensures crash { LeavesNoMore (IsImage self.old.bytes.items self.old.ranges.items)
            (IsImage self.new.bytes.items self.new.ranges.items) }
        ensures passes { MemCall result self.old self.new }
    {
        if self.begin()? {
            return Err(self.fault());
        }
        let start = at as usize;
        out.copy_from_slice(&self.bytes[start..start + out.len()]);
        Ok(())
    }

    fn write(&mut self, at: u64, bytes: &[u8]) -> Result<(), DiskFault>
        requires { at + length bytes.now ≤ length self.old.bytes.items }
        ensures written { OnOk result (Writes at bytes.now self.old.bytes.items self.new.bytes.items) }
        ensures unwritten { OnErr result (self.new.bytes.items ≡ self.old.bytes.items) }
        ensures crash { Tears at (length bytes.now) (IsImage self.old.bytes.items self.old.ranges.items)
            (IsImage self.new.bytes.items self.new.ranges.items) }
        ensures passes { MemCall result self.old self.new }
    {
        let fails = self.begin()?;
        match mark(&mut self.ranges, at, bytes.len() as u64) {
            Ok(()) if !fails => {
                replace(&mut self.bytes, at as usize, bytes);
                Ok(())
            }
            _ => Err(self.fault()),
        }
    }

    fn sync(&mut self) -> Result<(), DiskFault>
        ensures durable { OnOk result (LeavesAlone self.new.bytes.items
            (IsImage self.new.bytes.items self.new.ranges.items)) }
        ensures seen { OnOk result (self.new.bytes.items ≡ self.old.bytes.items) }
        ensures crash { LeavesNoMore (IsImage self.old.bytes.items self.old.ranges.items)
            (IsImage self.new.bytes.items self.new.ranges.items) }
        ensures passes { MemCall result self.old self.new }
    {
        if self.begin()? {
            return Err(self.fault());
        }
        self.ranges.clear();
        Ok(())
    }
}
