// Reads of a port that may be read so many times.
ghost use Rattle.std.specs.Prelude.{◌+◌, ◌^◌, ◌≡◌, ◌≤◌, ◌<◌, ℕ, List, false, true, OnOk, OnErr, IfErr};
ghost use Rattle.mav_frame.specs.Packet.{Packet};
ghost use Rattle.mav_links.specs.Links.{LinkState};
ghost use Rattle.mav_router.specs.Journal.{Rules, Grows};
ghost use Rattle.mav_router.specs.Runs.{Input, Output, HadBetween};
ghost use Rattle.mav_router.specs.Faults.{IsSwitchFault, StopsInput};

use crate::buffer::Buffer;
use crate::found::FoundFrames;
use crate::lane::Lane;
use crate::lanes::read_port;
use crate::{Switch, SwitchFault};
use mav_links::Link;

/// Whether the port is still read, and was read fewer times than it may be.
pub(crate) fn has_turns(lane: &Lane, most: u64) -> bool
    ensures live { result ≡ true → (lane.now.ended ≡ false) × (lane.now.failed ≡ false) × (lane.now.turns < most) }
    ensures over { result ≡ false → lane.now.ended ≡ false → lane.now.failed ≡ false → most ≤ lane.now.turns }
{
    !lane.ended && !lane.failed && lane.turns < most
}

// Whether a port is asked, or a read of it returns without waiting.
fn may_read<L: Link>(link: &mut L, is_asked: bool) -> bool
    ensures asked { is_asked ≡ true → result ≡ true }
    ensures kept { L.state link.new ≡ L.state link.old }
{
    if is_asked {
        return true;
    }
    link.is_ready()
}

/// Reads a port once and admits the frames that are found, if it may be read and is ready, or is asked whether it is
/// ready or not. Returns whether it was read.
pub(crate) fn read_ready<L: Link>(
    switch: &mut Switch<'_>,
    lane: &mut Lane,
    link: &mut L,
    port: u8,
    most: u64,
    is_asked: bool,
    buf: &mut Buffer,
    found: &mut FoundFrames,
) -> Result<bool, SwitchFault>
    requires from { 1 ≤ port }
    requires to { port ≤ switch.old.rules.ports }
    ensures grows { Grows port switch.old switch.new }
    ensures input { OnOk result ((rules : Rules) (first : LinkState)
        → Input rules switch.old.journal port first (L.state link.old) lane.old
        → Input rules switch.new.journal port first (L.state link.new) lane.new) }
    ensures stopped { OnErr result ((rules : Rules) (first : LinkState)
        → Input rules switch.old.journal port first (L.state link.old) lane.old
        → StopsInput rules switch.new.journal lane.new.turns lane.new.failed port first (L.state link.new)) }
    ensures fault { IfErr result (λ fault. IsSwitchFault fault switch.new.journal) }
    ensures output { (frames : List Packet) (first : LinkState)
        → Output frames first (L.state link.old) lane.old → Output frames first (L.state link.new) lane.new }
    ensures turns { (least : ℕ) → least ≤ most → HadBetween least most lane.old → HadBetween least most lane.new }
    ensures turned { is_asked ≡ true → (least : ℕ) → least < most → HadBetween least most lane.old
        → HadBetween (least + 1) most lane.new }
{
    if !has_turns(lane, most) {
        return Ok(false);
    }
    if !may_read(link, is_asked) {
        return Ok(false);
    }
    match read_port(switch, lane, link, port, buf, found) {
        Ok(()) => Ok(true),
        Err(fault) => Err(fault),
    }
}
