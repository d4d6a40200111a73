// One thread that reads all ports, each once it is ready.
ghost use Rattle.std.specs.Prelude.{◌≡◌, ◌≤◌, ◌<◌, ◌+◌, ◌^◌, ℕ, length, OnOk, OnErr, IfErr};
ghost use Rattle.mav_router.specs.Faults.{IsSwitchFault, RunStops};
ghost use Rattle.mav_router.specs.Runs.{RunGoesOn, AllTurned, DidBetween, KeepsTurns};

use crate::lane::Lane;
use crate::parts::Room;
use crate::reading::has_turns;
use crate::resting::{is_ready_at, rest_unless};
use crate::rounds::pass;
use crate::{Switch, SwitchFault};
use mav_links::Link;

// So often it is looked whether a port is ready, before it is read in any case.
const MOST_LOOKS: u32 = 1_000_000;

// Reads and writes at all ports that are ready, and rests where none is, until this one is ready.
fn await_port<L: Link>(
    switch: &mut Switch<'_>,
    lanes: &mut [Lane],
    links: &mut [L],
    room: &mut Room,
    most: u64,
    awaited: usize,
) -> Result<(), SwitchFault>
    requires lanes { length lanes.old ≡ length links.old }
    requires ports { length links.old ≤ switch.old.rules.ports }
    requires few { length links.old ≤ 8 }
    requires within { awaited < length links.old }
    ensures rules { switch.new.rules ≡ switch.old.rules }
    ensures so_far { OnOk result (RunGoesOn L.state switch.old switch.new links.old links.new lanes.old lanes.new) }
    ensures stopped { OnErr result (most + 1 < 2 ^ 64 → ((k : ℕ) → DidBetween 0 most lanes.old k)
        → RunStops L.state switch.old switch.new links.old links.new lanes.old most) }
    ensures fault { IfErr result (λ fault. IsSwitchFault fault switch.new.journal) }
    ensures turns { OnOk result (KeepsTurns most lanes.old lanes.new) }
{
    let none = links.len();
    for look in 0..MOST_LOOKS {
        let _ = look;
        if !has_turns(&lanes[awaited], most) {
            return Ok(());
        }
        if is_ready_at(links, awaited) {
            return Ok(());
        }
        match pass(switch, lanes, links, room, most, none) {
            Ok(any) => rest_unless(any, links, awaited),
            Err(fault) => return Err(fault),
        }
    }
    Ok(())
}

// Reads a port as often as it may be read, and the others whenever they are ready.
fn run_port<L: Link>(
    switch: &mut Switch<'_>,
    lanes: &mut [Lane],
    links: &mut [L],
    room: &mut Room,
    most: u64,
    awaited: usize,
) -> Result<(), SwitchFault>
    requires lanes { length lanes.old ≡ length links.old }
    requires ports { length links.old ≤ switch.old.rules.ports }
    requires few { length links.old ≤ 8 }
    requires within { awaited < length links.old }
    ensures rules { switch.new.rules ≡ switch.old.rules }
    ensures so_far { OnOk result (RunGoesOn L.state switch.old switch.new links.old links.new lanes.old lanes.new) }
    ensures stopped { OnErr result (most + 1 < 2 ^ 64 → ((k : ℕ) → DidBetween 0 most lanes.old k)
        → RunStops L.state switch.old switch.new links.old links.new lanes.old most) }
    ensures fault { IfErr result (λ fault. IsSwitchFault fault switch.new.journal) }
    ensures turns { OnOk result (KeepsTurns most lanes.old lanes.new) }
    ensures done { OnOk result (DidBetween 0 most lanes.old awaited → DidBetween most most lanes.new awaited) }
{
    for turn in 0..most {
        let _ = turn;
        if !has_turns(&lanes[awaited], most) {
            return Ok(());
        }
        if let Err(fault) = await_port(switch, lanes, links, room, most, awaited) {
            return Err(fault);
        }
        if let Err(fault) = pass(switch, lanes, links, room, most, awaited) {
            return Err(fault);
        }
    }
    Ok(())
}

/// Reads all ports, each whenever it is ready, as often as they may be read, and writes what can be written at once.
/// Where no port waits for its bytes each round reads all of them, in their order.
pub(crate) fn run_ports<L: Link>(
    switch: &mut Switch<'_>,
    lanes: &mut [Lane],
    links: &mut [L],
    room: &mut Room,
    most: u64,
) -> Result<(), SwitchFault>
    requires lanes { length lanes.old ≡ length links.old }
    requires ports { length links.old ≤ switch.old.rules.ports }
    requires few { length links.old ≤ 8 }
    requires most { most ≤ 1_000_000_000 }
    requires turned { AllTurned lanes.old 0 }
    ensures rules { switch.new.rules ≡ switch.old.rules }
    ensures so_far { OnOk result (RunGoesOn L.state switch.old switch.new links.old links.new lanes.old lanes.new) }
    ensures stopped { OnErr result (RunStops L.state switch.old switch.new links.old links.new lanes.old most) }
    ensures fault { IfErr result (λ fault. IsSwitchFault fault switch.new.journal) }
    ensures turned { OnOk result (AllTurned lanes.new most) }
{
    for awaited in 0..links.len() {
        if let Err(fault) = run_port(switch, lanes, links, room, most, awaited) {
            return Err(fault);
        }
    }
    Ok(())
}
