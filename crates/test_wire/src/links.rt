// What an endpoint receives in a datagram.
ghost use Rattle.std.specs.Prelude.{IfOk};
ghost use Rattle.mav_sign.specs.Endpoints.{HasProfile};

use dialect::Dialect;
use mav_names::Stream;
use mav_sign::{Admit, Endpoint, Heard, Key, NoMemory};
use std::alloc::Global;
use std::test::Fail;
use x25_check::Extras;

const KEY: [u8; 32] = [
    0, 1, 2, 3, 4, 5, 6, 7, 8, 9, 10, 11, 12, 13, 14, 15, 16, 17, 18, 19, 20, 21, 22, 23, 24, 25,
    26, 27, 28, 29, 30, 31,
];

// Garbage; a HEARTBEAT of 1.1 with link 0 and timestamp 1, signed by Python's hashlib under KEY; the same with a wrong
// signature; an unsigned MISSION_CURRENT of 1.1; the first again; and a MISSION_CURRENT of 1.1 with link 7 and
// timestamp 0x010203040506, signed likewise.
const DATAGRAM: [u8; 143] = [
    0xFD, 0x09, 0xFD, 0x09, 0x01, 0x00, 0x00, 0x01, 0x01, 0x00, 0x00, 0x00, 0x00, 0x00, 0x00, 0x00,
    0x02, 0x03, 0x51, 0x04, 0x03, 0x00, 0xE6, 0x00, 0x01, 0x00, 0x00, 0x00, 0x00, 0x00, 0x1C, 0x44,
    0xB1, 0x0F, 0x2D, 0xBB, 0xFD, 0x09, 0x01, 0x00, 0x00, 0x01, 0x01, 0x00, 0x00, 0x00, 0x00, 0x00,
    0x00, 0x00, 0x02, 0x03, 0x51, 0x04, 0x03, 0x00, 0xE6, 0x00, 0x01, 0x00, 0x00, 0x00, 0x00, 0x00,
    0x1C, 0x44, 0xB1, 0x0F, 0x2D, 0xBA, 0xFD, 0x01, 0x00, 0x00, 0x03, 0x01, 0x01, 0x2A, 0x00, 0x00,
    0x04, 0x20, 0x25, 0xFD, 0x09, 0x01, 0x00, 0x00, 0x01, 0x01, 0x00, 0x00, 0x00, 0x00, 0x00, 0x00,
    0x00, 0x02, 0x03, 0x51, 0x04, 0x03, 0x00, 0xE6, 0x00, 0x01, 0x00, 0x00, 0x00, 0x00, 0x00, 0x1C,
    0x44, 0xB1, 0x0F, 0x2D, 0xBB, 0xFD, 0x01, 0x01, 0x00, 0x01, 0x01, 0x01, 0x2A, 0x00, 0x00, 0x03,
    0x60, 0x4F, 0x07, 0x06, 0x05, 0x04, 0x03, 0x02, 0x01, 0x6A, 0xD0, 0x49, 0xC9, 0x1B, 0x44,
];

const ME: Stream = Stream {
    sys: 9,
    comp: 1,
    link: 0,
};

fn profile_extras(alloc: Global) -> Result<Extras, NoMemory>
    ensures { IfOk result HasProfile }
{
    let profile = Dialect::profile(alloc)?;
    let extras = profile.extras().copy()?;
    Ok(extras)
}

// Three digits: the id of a message, or 900 and the number of the reason against a frame.
fn code(heard: &Heard) -> u32 {
    match heard {
        Heard::Message(_, message) => message.id(),
        Heard::Other(_, id) => *id,
        Heard::Dropped(Admit::Unsigned) => 901,
        Heard::Dropped(Admit::BadSignature) => 902,
        Heard::Dropped(Admit::NotLater { last: 1 }) => 903,
        Heard::Dropped(_) => 900,
    }
}

// The digits of all, after a leading 1.
fn digits(heard: &[Heard]) -> u64 {
    let mut number = 1u64;
    for one in heard {
        number = number.wrapping_mul(1000).wrapping_add(u64::from(code(one)));
    }
    number
}

fn told(alloc: Global) -> Result<u64, NoMemory> {
    let extras = profile_extras(alloc)?;
    let mut endpoint = Endpoint::new(alloc, Key::new(KEY), ME, extras)?;
    let mut heard = Vec::new(alloc);
    endpoint.receive(&DATAGRAM, &mut heard)?;
    Ok(digits(&heard))
}

// Appends what is reported of the frames that end in this piece of a stream, of which there are at most three.
fn hear_piece(
    endpoint: &mut Endpoint,
    piece: &[u8],
    heard: &mut Vec<Heard>,
) -> Result<(), NoMemory> {
    let mut rest = piece;
    for _call in 0..4 {
        let (taken, one) = endpoint.receive_part(rest);
        rest = &rest[taken..];
        if let Some(one) = one {
            heard.push(one)?;
        }
    }
    Ok(())
}

// The same of these bytes as a stream in pieces of seven.
fn told_in_pieces(alloc: Global) -> Result<u64, NoMemory> {
    let extras = profile_extras(alloc)?;
    let mut endpoint = Endpoint::new(alloc, Key::new(KEY), ME, extras)?;
    let mut heard = Vec::new(alloc);
    for piece in DATAGRAM.chunks(7) {
        hear_piece(&mut endpoint, piece, &mut heard)?;
    }
    Ok(digits(&heard))
}

#[test]
fn a_datagram_of_good_and_bad_frames(rt: HostRuntime) -> Result<(), Fail> {
    assert_eq!(rt; told(rt.alloc())?, 1_000_902_901_903_042);
    assert_eq!(rt; told_in_pieces(rt.alloc())?, 1_000_902_901_903_042);
    Ok(())
}
