// A payload's values, and the payload again.
use dialect::Dialect;
use field_layout::{Layout, NoMemory, pack, unpack};
use std::alloc::Global;
use std::test::Fail;

// A MISSION_ITEM_INT, as the published layout gives it.
const PAYLOAD: [u8; 38] = [
    0x00, 0x00, 0x40, 0x40, 0x14, 0x13, 0x12, 0x11, 0x24, 0x23, 0x22, 0x21, 0x00, 0x00, 0xc0, 0x7f,
    0x4c, 0x52, 0x40, 0x1c, 0xbc, 0x0b, 0xe8, 0xfa, 0x00, 0x00, 0x48, 0x42, 0x03, 0x00, 0x89, 0x13,
    0x01, 0x02, 0x06, 0x07, 0x08, 0x01,
];

// Its words, field by field.
const WORDS: [u64; 15] = [
    1,
    2,
    3,
    6,
    5001,
    7,
    8,
    0x4040_0000,
    0x1112_1314,
    0x2122_2324,
    0x7FC0_0000,
    473_977_420,
    0xFAE8_0BBC,
    0x4248_0000,
    1,
];

// How many fields have the wanted word.
fn as_wanted(fields: &[Vec<u64>]) -> usize {
    for (place, words) in fields.iter().enumerate() {
        if words.first() != WORDS.get(place) {
            return place;
        }
    }
    fields.len()
}

// The same of the payload's fields, and whether they are packed to the payload again.
fn packed_again(layout: &Layout) -> Result<(usize, bool), NoMemory> {
    let values = unpack(layout, &PAYLOAD)?;
    let mut out = [7u8; 255];
    let len = pack(layout, &values, &mut out) as usize;
    let is_same = out[..len] == PAYLOAD[..];
    Ok((as_wanted(&values.into_words()), is_same))
}

fn told(alloc: Global) -> Result<(usize, bool), NoMemory> {
    let profile = Dialect::profile(alloc)?;
    match profile.get(73) {
        Some(layout) => packed_again(layout),
        None => Ok((0, false)),
    }
}

#[test]
fn an_item_unpacks_and_packs(rt: HostRuntime) -> Result<(), Fail> {
    assert_eq!(rt; told(rt.alloc())?, (15, true));
    Ok(())
}
