// The final parse of a whole slice.
ghost use Rattle.std.specs.Prelude.{◌<◌, ◌≤◌, length, drop, IfOk};
ghost use Rattle.mav_frame.specs.Parse.{EventAt, Final, FrontAt};

use crate::checking::{check_frame, look};
use crate::{Event, FrameCheck, Look, NoMemory, RawFrame, Why};
use std::alloc::Global;
use x25_check::Extras;

/// The events of the final parse of all the bytes, by its definition: at each index a frame, or one byte skipped.
pub fn parse(
    alloc: Global,
    extras: &Extras,
    old: bool,
    bytes: &[u8],
) -> Result<Vec<Event>, NoMemory>
    ensures { IfOk result (λ events. Final extras.now old events.items bytes.now) }
{
    let mut events = Vec::new(alloc);
    let mut place = 0;
    while place < bytes.len() {
        let (event, size) = event_at(extras, old, &bytes[place..]);
        events.push(event)?;
        place += size;
    }
    Ok(events)
}

/// The event at the start of the bytes in their final parse, and how many bytes it takes. Doesn't allocate.
pub fn event_at(extras: &Extras, old: bool, bytes: &[u8]) -> (Event, usize)
    requires { 0 < length bytes.now }
    ensures size { (0 < result.1) × (result.1 ≤ length bytes.now) }
    ensures event { EventAt extras.now old result.0 bytes.now (drop result.1 bytes.now) }
{
    match look(extras, old, bytes) {
        Look::Frame(frame, size) => (Event::Frame(frame), size),
        Look::NotHere(why) => (Event::Skipped(bytes[0], why), 1),
        Look::More(_) => (Event::Skipped(bytes[0], Why::Short), 1),
    }
}

/// The same without what is skipped and why: the frame at the start of the bytes, if there is one, as these bytes.
pub fn front_at<'a>(extras: &Extras, old: bool, bytes: &'a [u8]) -> (Option<RawFrame<'a>>, usize)
    requires { 0 < length bytes.now }
    ensures size { (0 < result.1) × (result.1 ≤ length bytes.now) }
    ensures front { FrontAt extras.now old result.0 bytes.now (drop result.1 bytes.now) }
{
    match check_frame(extras, old, bytes) {
        FrameCheck::Whole(size) => (Some(RawFrame::at(old, bytes, size)), size),
        FrameCheck::NotHere(_) => (None, 1),
        FrameCheck::More(_) => (None, 1),
    }
}
