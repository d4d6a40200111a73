// Saves over a disk in memory, stopped at each of their calls.
use slot_store::{Disk, MemDisk, SlotKeeper};
use std::alloc::Global;
use std::test::Fail;

// The store on these bytes: each call of its disk fails from number `stop` on. Opening it takes the calls 0 to 2.
fn store_on(alloc: Global, bytes: &[u8], stop: u64) -> Option<SlotKeeper<MemDisk>> {
    let bytes = bytes.to_vec(alloc).ok()?;
    open(alloc, MemDisk::new(alloc, bytes, Vec::new(alloc), stop))
}

fn open(alloc: Global, disk: MemDisk) -> Option<SlotKeeper<MemDisk>> {
    if disk.size() < 131_092 {
        return None;
    }
    SlotKeeper::open(alloc, disk).ok()
}

fn save(keeper: &mut SlotKeeper<MemDisk>, bytes: &[u8]) -> bool {
    bytes.len() <= 65_536 && keeper.save(bytes).is_ok()
}

fn loads(keeper: &mut SlotKeeper<MemDisk>, bytes: &[u8]) -> bool {
    match keeper.load() {
        Ok(loaded) => loaded.as_slice() == bytes,
        Err(_) => false,
    }
}

// Whether the store on this disk opens and holds the new bytes, or the old ones where no save returned Ok.
fn holds(alloc: Global, disk: MemDisk, old: &[u8], new: &[u8], is_saved: bool) -> bool {
    match open(alloc, disk) {
        Some(mut keeper) => loads(&mut keeper, new) || !is_saved && loads(&mut keeper, old),
        None => false,
    }
}

// The save stopped at this call, and then a crash.
fn survives(alloc: Global, bytes: &[u8], old: &[u8], new: &[u8], stop: u64, pick: u64) -> bool {
    let Some(mut keeper) = store_on(alloc, bytes, stop) else {
        return false;
    };
    let is_saved = save(&mut keeper, new);
    match keeper.close().crash(pick) {
        Ok(disk) => holds(alloc, disk, old, new, is_saved),
        Err(_) => false,
    }
}

// The save stopped at each of its calls, at most six, with picks 0 to 15.
fn survives_each(alloc: Global, bytes: &[u8], old: &[u8], new: &[u8]) -> bool {
    for stop in 3..10 {
        for pick in 0..16 {
            if !survives(alloc, bytes, old, new, stop, pick) {
                return false;
            }
        }
    }
    true
}

// What the disk holds after the save.
fn saved(alloc: Global, bytes: &[u8], new: &[u8]) -> Option<Vec<u8>> {
    let mut keeper = store_on(alloc, bytes, 100)?;
    if !save(&mut keeper, new) {
        return None;
    }
    keeper.close().bytes().to_vec(alloc).ok()
}

// The bytes of save number n.
fn bytes_of(alloc: Global, n: u8) -> Option<Vec<u8>> {
    vec![in alloc; n; usize::from(n) * 13 % 300].ok()
}

// Fifty saves, one after another, each of them stopped at each of its calls first: 5,600 images.
fn all_survive(alloc: Global) -> Option<bool> {
    let mut disk = vec![in alloc; 0u8; 131_092].ok()?;
    let mut old = Vec::new(alloc);
    for n in 1..51u8 {
        let new = bytes_of(alloc, n)?;
        if !survives_each(alloc, &disk, &old, &new) {
            return Some(false);
        }
        disk = saved(alloc, &disk, &new)?;
        old = new;
    }
    Some(true)
}

#[test]
fn every_crash_leaves_the_old_contents_or_the_new_ones(rt: HostRuntime) -> Result<(), Fail> {
    assert_eq!(rt; all_survive(rt.alloc()), Some(true));
    Ok(())
}

// The first bytes of the first slot after a save on a disk of zeros, and those of both slots after two more.
fn three_saves(alloc: Global) -> Option<[[u8; 13]; 3]> {
    let zeros = vec![in alloc; 0u8; 131_092].ok()?;
    let first = saved(alloc, &zeros, b"abc")?;
    let second = saved(alloc, &first, b"d")?;
    let third = saved(alloc, &second, b"ef")?;
    let kept: &[u8; 13] = first.first_chunk()?;
    if third.len() < 131_092 || !second.starts_with(kept) {
        return None;
    }
    Some([
        *kept,
        *third.first_chunk()?,
        *third[65_546..].first_chunk()?,
    ])
}

#[test]
fn saves_take_turns(rt: HostRuntime) -> Result<(), Fail> {
    let slots = [
        *b"\xA5\0\x03\0\0\0\0\0\0\0abc",
        *b"\xA5\x02\x02\0\0\0\0\0\0\0efc",
        *b"\xA5\x01\x01\0\0\0\0\0\0\0d\0\0",
    ];
    assert_eq!(rt; three_saves(rt.alloc()), Some(slots));
    Ok(())
}
