// Stores as nodes and the program use them.
use plan_store::{Handed, KeepFault, Keeper, MemKeeper, Stored, save_or_load};
use std::test::Fail;

fn loads<K: Keeper>(keeper: &mut K, bytes: &[u8]) -> bool {
    match keeper.load() {
        Ok(loaded) => loaded.as_slice() == bytes,
        Err(_) => false,
    }
}

fn letter(saved: Result<Stored, KeepFault>) -> u8 {
    match saved {
        Ok(Stored::New) => b'n',
        Ok(Stored::Old) => b'o',
        Err(KeepFault::Store) => b's',
        Err(KeepFault::NoMemory) => b'm',
    }
}

// Saves "two" in place of "one", and then "six" in place of "two".
fn two_saves<K: Keeper>(keeper: &mut K) -> [u8; 2] {
    [
        letter(save_or_load(keeper, b"one", b"two")),
        letter(save_or_load(keeper, b"two", b"six")),
    ]
}

// Takes the last store out, uses it and puts it back.
fn two_saves_of_last(keepers: &mut Vec<Box<dyn Keeper>>) -> Option<[u8; 2]> {
    let mut keeper = Handed::new(keepers.pop()?);
    let letters = two_saves(&mut keeper);
    keepers.push(keeper.back()).ok()?;
    Some(letters)
}

#[test]
fn failing_saves_keep_the_old_at_even_and_the_new_at_odd_calls(
    rt: HostRuntime,
) -> Result<(), Fail> {
    let alloc = rt.alloc();
    let mut keeper = MemKeeper::new(alloc, vec![in alloc; 1, 2]?, vec![in alloc; 2, 5]?);
    assert!(rt; loads(&mut keeper, &[1, 2]));
    assert!(rt; keeper.save(b"one").is_ok());
    assert!(rt; matches!(keeper.save(b"two"), Err(KeepFault::Store)));
    assert!(rt; loads(&mut keeper, b"one"));
    assert!(rt; loads(&mut keeper, b"one"));
    assert!(rt; matches!(keeper.save(b"three"), Err(KeepFault::Store)));
    assert!(rt; loads(&mut keeper, b"three"));
    Ok(())
}

#[test]
fn a_load_decides_what_a_failed_save_left(rt: HostRuntime) -> Result<(), Fail> {
    let alloc = rt.alloc();
    let mut keepers: Vec<Box<dyn Keeper>> = Vec::new(alloc);
    let keeper = MemKeeper::new(
        alloc,
        vec![in alloc; b'o', b'n', b'e']?,
        vec![in alloc; 0, 3, 5, 6]?,
    );
    keepers.push(Box::new(alloc, keeper)?)?;
    // Call 0 leaves the old contents, which call 1 loads; call 2 saves.
    assert_eq!(rt; two_saves_of_last(&mut keepers), Some(*b"on"));
    // Call 3 leaves the new contents, which call 4 loads; calls 5 and 6 both fail.
    assert_eq!(rt; two_saves_of_last(&mut keepers), Some(*b"ns"));
    Ok(())
}
