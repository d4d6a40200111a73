// What a router keeps of a port.
ghost use Rattle.std.specs.Prelude.{◌+◌, ◌^◌, ◌≡◌, ◌≤◌, ◌<◌, ℕ, List, take, false, true, OnOk, OnErr, IfErr, IfSome};
ghost use Rattle.std.specs.Prelude.{IfNone};
ghost use Rattle.mav_frame.specs.Packet.{Packet};
ghost use Rattle.mav_links.specs.Links.{LinkState};
ghost use Rattle.mav_router.specs.Journal.{Rules, Grows};
ghost use Rattle.mav_router.specs.Runs.{Input, Output, HadTurns};
ghost use Rattle.mav_router.specs.declared.entries.Entry.{Entry};
ghost use Rattle.mav_router.specs.Faults.{IsSwitchFault, StopsInput};
ghost use Rattle.mav_router.specs.Unheard.{Unheard};

use crate::buffer::Buffer;
use crate::found::FoundFrames;
use crate::lane::Lane;
use crate::{Switch, SwitchFault};
use mav_links::Link;
use mav_ports::Got;

/// Reads a port once, and returns how many bytes of the buffer are to be looked at: those that its reader holds, and
/// those that came after them. Returns nothing if there is nothing to do.
pub(crate) fn read_lane<L: Link>(lane: &mut Lane, link: &mut L, buf: &mut Buffer) -> Option<usize>
    requires live { lane.old.ended ≡ false }
    requires fine { lane.old.failed ≡ false }
    ensures within { IfSome result (λ count. count ≤ 4376) }
    ensures some { IfSome result (λ count. (rules : Rules) (journal : List Entry) (port : ℕ) (first : LinkState)
        → Input rules journal port first (L.state link.old) lane.old
        → Unheard rules journal port (take count buf.new) first (L.state link.new) lane.new) }
    ensures none { IfNone result ((rules : Rules) (journal : List Entry) (port : ℕ) (first : LinkState)
        → Input rules journal port first (L.state link.old) lane.old
        → Input rules journal port first (L.state link.new) lane.new) }
    ensures output { (frames : List Packet) (first : LinkState)
        → Output frames first (L.state link.old) lane.old → Output frames first (L.state link.new) lane.new }
    ensures turned { (turns : ℕ) → turns + 1 < 2 ^ 64 → HadTurns lane.old turns → HadTurns lane.new (turns + 1) }
{
    let held = buf.put_first(lane.scanner.held());
    match buf.read_after(link, held) {
        Got::Bytes(count) => {
            lane.turns = lane.turns.saturating_add(1);
            lane.read = lane.read.saturating_add(count as u64);
            Some(held + count)
        }
        Got::Idle => {
            lane.turns = lane.turns.saturating_add(1);
            None
        }
        Got::End => {
            lane.ended = true;
            lane.scanner.end();
            Some(held)
        }
        Got::Failed => {
            lane.failed = true;
            None
        }
    }
}

/// Reads a port once, and admits the frames that are found.
pub(crate) fn read_port<L: Link>(
    switch: &mut Switch<'_>,
    lane: &mut Lane,
    link: &mut L,
    port: u8,
    buf: &mut Buffer,
    found: &mut FoundFrames,
) -> Result<(), SwitchFault>
    requires from { 1 ≤ port }
    requires to { port ≤ switch.old.rules.ports }
    ensures grows { Grows port switch.old switch.new }
    ensures input { OnOk result ((rules : Rules) (first : LinkState)
        → Input rules switch.old.journal port first (L.state link.old) lane.old
        → Input rules switch.new.journal port first (L.state link.new) lane.new) }
    ensures stopped { OnErr result ((rules : Rules) (first : LinkState)
        → Input rules switch.old.journal port first (L.state link.old) lane.old
        → StopsInput rules switch.new.journal lane.new.turns lane.new.failed port first (L.state link.new)) }
    ensures fault { IfErr result (λ fault. IsSwitchFault fault switch.new.journal) }
    ensures output { (frames : List Packet) (first : LinkState)
        → Output frames first (L.state link.old) lane.old → Output frames first (L.state link.new) lane.new }
    ensures turned { (turns : ℕ) → turns + 1 < 2 ^ 64 → HadTurns lane.old turns → HadTurns lane.new (turns + 1) }
{
    if lane.failed || lane.ended {
        return Ok(());
    }
    let Some(count) = read_lane(lane, link, buf) else {
        return Ok(());
    };
    let rules = switch.rules();
    if let Err(_) = found.find(rules, &mut lane.scanner, &mut lane.skipped, buf, count) {
        return Err(SwitchFault::NoMemory);
    }
    switch.admit_found(port, found)
}
