// The frames of datagrams and of a stream.
ghost use Rattle.std.specs.Prelude.{◌≡◌, ◌≤◌, ◌<◌, ◌+◌, ◌*◌, ◌++◌, ℕ, List, length, take, None, false, vec_len};
ghost use Rattle.std.specs.Prelude.{vec_capacity, OnOk, OnErr};
ghost use Rattle.mav_frame.specs.declared.events.Event.{Event};
ghost use Rattle.mav_stream.specs.Progress.{Progress};
ghost use Rattle.mav_sign.specs.Endpoints.{FrontFrames, FramesOf};
ghost use Rattle.mav_sign.specs.Streams.{ReadTo};

use crate::NoMemory;
use mav_frame::{Event, Frame, event_at};
use mav_stream::{Next, Reader};
use x25_check::Extras;

/// The bytes of a frame with no payload and no signature block.
pub(crate) const LEAST_FRAME_BYTES: usize = 12;

/// Appends the frames of the final parse of a datagram, in order. Allocates the memory for that first, and without it
/// nothing is appended.
pub(crate) fn append_frames(
    extras: &Extras,
    datagram: &[u8],
    out: &mut Vec<Frame>,
) -> Result<(), NoMemory>
    ensures frames { OnOk result (FramesOf extras.now datagram.now out.old.items out.new.items) }
    ensures kept { OnErr result (out.new.items ≡ out.old.items) }
{
    out.reserve(datagram.len() / LEAST_FRAME_BYTES)?;
    let mut index = 0;
    while index < datagram.len() {
        index += append_front(extras, &datagram[index..], out);
    }
    Ok(())
}

// Appends the frame at the start of some bytes, if there is one, and returns how many bytes the event there takes.
fn append_front(extras: &Extras, bytes: &[u8], out: &mut Vec<Frame>) -> usize
    requires some { 0 < length bytes.now }
    requires room { 12 ≤ length bytes.now → vec_len out.old < vec_capacity out.old }
    ensures size { (0 < result) × (result ≤ length bytes.now) }
    ensures front { FrontFrames extras.now bytes.now result out.old.items out.new.items }
    ensures room { (vec_capacity out.old ≤ vec_capacity out.new)
        × (vec_len out.new * 12 ≤ vec_len out.old * 12 + result) }
{
    let (event, size) = event_at(extras, false, bytes);
    match event {
        Event::Frame(frame) => out.push(frame).unwrap(),
        Event::Skipped(_, _) => {}
    }
    size
}

/// Reads on to the next frame, and returns how many bytes of the piece that took. Without a frame it took all of them.
pub(crate) fn read_frame(reader: &mut Reader, piece: &[u8]) -> (usize, Option<Frame>)
    requires { (reader.old.ended ≡ false) × (reader.old.reads_old ≡ false) }
    ensures count { result.0 ≤ length piece.now }
    ensures read { (extras : List (ℕ × ℕ)) (taken : List ℕ) (given : List Event)
        → Progress extras false taken given reader.old
        → ReadTo extras (taken ++ take result.0 piece.now) given result.1 reader.new }
    ensures none { result.1 ≡ None → result.0 ≡ length piece.now }
    ensures same { (reader.new.extras ≡ reader.old.extras) × (reader.new.ended ≡ false)
        × (reader.new.reads_old ≡ false) }
{
    let mut taken = 0;
    'reading: loop {
        match reader.next() {
            Next::Frame(frame) => return (taken, Some(frame)),
            Next::Skipped(_, _) => continue 'reading,
            Next::Need => {}
        }
        if taken == piece.len() {
            return (taken, None);
        }
        taken += reader.feed(&piece[taken..]);
    }
}
