// A stream in pieces against the parse of its whole.
ghost use Rattle.std.specs.Prelude.{◌≡◌, ◌<◌, ◌∷◌, ℕ, Bool, true, List, [], length, IfOk, OnOk};
ghost use Rattle.mav_frame.specs.Parse.{Final};
ghost use Rattle.mav_stream.specs.Progress.{Progress, IsWhole};

use mav_frame::{Event, NoMemory, parse};
use mav_stream::{Next, Reader};
use std::alloc::Global;
use std::test::Fail;
use x25_check::Extras;

// Garbage, a HEARTBEAT of node 1.1 as frames of MAVLink 2 and of MAVLink 1, and a MISSION_CURRENT, as captures have
// them.
const CAPTURE: [u8; 52] = [
    0, 0xFD, 9, 0, 0, 0, 1, 1, 0, 0, 0, 0, 0, 0, 0, 2, 3, 81, 4, 3, 0xE7, 0x1E, 0xFE, 9, 0, 1, 1,
    0, 0, 0, 0, 0, 2, 3, 81, 4, 3, 0x7D, 0xDD, 0xFD, 1, 0, 0, 1, 1, 1, 42, 0, 0, 0, 0x2F, 0x49,
];

fn extras(alloc: Global) -> Result<Extras, NoMemory>
    ensures { IfOk result (λ table. table ≡ (0, 50) ∷ (42, 28) ∷ []) }
{
    let mut pairs = Vec::new(alloc);
    pairs.push((0u32, 50u8))?;
    pairs.push((42, 28))?;
    Ok(Extras::new(pairs))
}

// Appends the events until the reader needs more bytes.
fn drain(reader: &mut Reader, events: &mut Vec<Event>) -> Result<(), NoMemory>
    ensures progress { OnOk result
        ((extras : List (ℕ × ℕ)) (reads_old : Bool) (taken : List ℕ)
        → Progress extras reads_old taken events.old.items reader.old
        → Progress extras reads_old taken events.new.items reader.new
        × IsWhole extras reads_old taken events.new.items reader.new) }
    ensures room { OnOk result (length reader.new.bytes < 280) }
    ensures ended { reader.new.ended ≡ reader.old.ended }
{
    loop {
        match reader.next() {
            Next::Frame(frame) => events.push(Event::Frame(frame))?,
            Next::Skipped(byte, why) => events.push(Event::Skipped(byte, why))?,
            Next::Need => return Ok(()),
        }
    }
}

// The events of a stream that comes in pieces of one size.
fn read_in_pieces(
    alloc: Global,
    extras: Extras,
    bytes: &[u8],
    size: usize,
) -> Result<Vec<Event>, NoMemory>
    requires { 0 < size }
    ensures { IfOk result (λ events. Final extras true events.items bytes.now) }
{
    let mut reader = Reader::new(extras, true);
    let mut events = Vec::new(alloc);
    let mut place = 0;
    while place < bytes.len() {
        let end = place + size.min(bytes.len() - place);
        place += reader.feed(&bytes[place..end]);
        drain(&mut reader, &mut events)?;
    }
    reader.end();
    drain(&mut reader, &mut events)?;
    Ok(events)
}

// The id and the checksum of a frame; a skipped byte and the number of its reason.
fn code(event: &Event) -> (u32, u16) {
    match event {
        Event::Frame(frame) => (frame.id, frame.check),
        Event::Skipped(byte, why) => (u32::from(*byte), *why as u16),
    }
}

// How many events are as wanted.
fn as_wanted(events: &[Event], wanted: &[(u32, u16)]) -> usize {
    for (index, event) in events.iter().enumerate() {
        if wanted.get(index) != Some(&code(event)) {
            return index;
        }
    }
    events.len()
}

// The same of the capture in pieces of one size.
fn in_pieces(alloc: Global, wanted: &[(u32, u16)], size: usize) -> Result<usize, NoMemory>
    requires { 0 < size }
{
    let events = read_in_pieces(alloc, extras(alloc)?, &CAPTURE, size)?;
    Ok(as_wanted(&events, wanted))
}

// The same of the capture as a whole, and in pieces of several sizes.
fn reported(alloc: Global, wanted: &[(u32, u16)]) -> Result<[usize; 5], NoMemory> {
    let whole = parse(alloc, &extras(alloc)?, true, &CAPTURE)?;
    Ok([
        as_wanted(&whole, wanted),
        in_pieces(alloc, wanted, 1)?,
        in_pieces(alloc, wanted, 2)?,
        in_pieces(alloc, wanted, 7)?,
        in_pieces(alloc, wanted, 280)?,
    ])
}

#[test]
fn a_capture_whole_and_in_pieces(rt: HostRuntime) -> Result<(), Fail> {
    let wanted = [(0, 1), (0, 0x1EE7), (0, 0xDD7D), (42, 0x492F)];
    assert_eq!(rt; reported(rt.alloc(), &wanted)?, [4; 5]);
    Ok(())
}
