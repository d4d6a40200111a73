// A small file as a caller reads it: a comment, CR LF, an empty line, and a last line without LF.
use command_inputs::read_plan;
use mav_ports::SureSource;
use plan_items::Item;
use std::alloc::{AllocError, Global};
use std::test::Fail;

const FILE: &[u8] =
    b"# two and one\r\nitems 2 6 16 -10 20 41200000\r\n\nitem 3 21 5 -6 00000000 3f800000 00000000 00000000 00000001";

const FILE_ITEMS: [[i64; 9]; 3] = [
    [6, 16, -10, 20, 0x4120_0000, 0, 0, 0, 0],
    [6, 16, -9, 20, 0x4120_0000, 0, 0, 0, 0],
    [3, 21, 5, -6, 0, 0x3F80_0000, 0, 0, 1],
];

// The numbers of an item, in the order in which a line has them.
fn numbers_of(item: &Item) -> [i64; 9] {
    [
        i64::from(item.frame),
        i64::from(item.command),
        i64::from(item.x),
        i64::from(item.y),
        i64::from(item.z),
        i64::from(item.p[0]),
        i64::from(item.p[1]),
        i64::from(item.p[2]),
        i64::from(item.p[3]),
    ]
}

// Whether these are the items of the file.
fn are_of_file(items: &[Item]) -> bool {
    match items {
        [first, second, third] => {
            [numbers_of(first), numbers_of(second), numbers_of(third)] == FILE_ITEMS
        }
        _ => false,
    }
}

fn gives_its_items(alloc: Global) -> Result<bool, AllocError> {
    let mut input = SureSource::new(FILE.to_vec(alloc)?);
    match read_plan(alloc, &mut input) {
        Ok(plan) => Ok(are_of_file(plan.as_slice())),
        Err(_) => Ok(false),
    }
}

#[test]
fn a_small_file_gives_its_items(rt: HostRuntime) -> Result<(), Fail> {
    let given = gives_its_items(rt.alloc())?;
    assert!(rt; given);
    Ok(())
}
