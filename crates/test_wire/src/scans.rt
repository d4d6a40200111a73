// What is at the start of a stream that a scanner holds.

use mav_frame::NoMemory;
use mav_stream::{NextSpan, Scanner};
use std::alloc::Global;
use std::test::Fail;
use x25_check::Extras;

// Garbage, an STX with an unknown flag and what is left of its frame, a HEARTBEAT of node 1.1 as captures have it,
// and the header of an unknown id.
const MIXED: [u8; 37] = [
    7, 8, 0xFD, 0, 2, 1, 0xFD, 9, 0, 0, 0, 1, 1, 0, 0, 0, 0, 0, 0, 0, 2, 3, 81, 4, 3, 0xE7, 0x1E,
    0xFD, 0, 0, 0, 0, 1, 1, 1, 0, 0,
];

// The reason, 0 for a frame and 9 at Need, and the length of each span.
const WANTED: [(u16, usize); 7] = [(1, 2), (2, 1), (1, 3), (0, 21), (3, 1), (1, 9), (9, 0)];

fn extras(alloc: Global) -> Result<Extras, NoMemory> {
    let mut pairs = Vec::new(alloc);
    pairs.push((0u32, 50u8))?;
    Ok(Extras::new(pairs))
}

fn code(span: NextSpan) -> (u16, usize) {
    match span {
        NextSpan::Frame(size) => (0, size),
        NextSpan::Skipped(why, count) => (why as u16, count),
        NextSpan::Need => (9, 0),
    }
}

// How many spans are as wanted, each of which is removed.
fn as_wanted(scanner: &mut Scanner, wanted: &[(u16, usize)]) -> usize {
    for (index, want) in wanted.iter().enumerate() {
        let span = scanner.next_span();
        if code(span) != *want {
            return index;
        }
        scanner.consume(span.size());
    }
    wanted.len()
}

fn told(alloc: Global) -> Result<(usize, usize), NoMemory> {
    let mut scanner = Scanner::new(alloc, extras(alloc)?, true)?;
    let taken = scanner.feed(&MIXED);
    Ok((taken, as_wanted(&mut scanner, &WANTED)))
}

#[test]
fn each_answer_in_turn(rt: HostRuntime) -> Result<(), Fail> {
    assert_eq!(rt; told(rt.alloc())?, (37, 7));
    Ok(())
}
