// Rounds over all ports.
ghost use Rattle.std.specs.Prelude.{◌≡◌, ◌≤◌, ◌<◌, ◌+◌, ◌^◌, ℕ, length, OnOk, OnErr, IfErr};
ghost use Rattle.mav_router.specs.Faults.{IsSwitchFault, RunStops};
ghost use Rattle.mav_router.specs.Runs.{RunGoesOn, IsDrained, AllTurned, DidBetween, KeepsTurns, TurnsOnce};

use crate::batch::Batch;
use crate::lane::Lane;
use crate::parts::Room;
use crate::reading::read_ready;
use crate::writing::write_port;
use crate::writing_now::write_port_now;
use crate::{Switch, SwitchFault};
use mav_links::Link;

/// Reads once each port that may be read and is ready, in turn, and the one that is asked whether it is ready or not.
/// Returns whether any was read.
pub(crate) fn read_each<L: Link>(
    switch: &mut Switch<'_>,
    lanes: &mut [Lane],
    links: &mut [L],
    room: &mut Room,
    most: u64,
    asked: usize,
) -> Result<bool, SwitchFault>
    requires lanes { length lanes.old ≡ length links.old }
    requires ports { length links.old ≤ switch.old.rules.ports }
    requires few { length links.old ≤ 8 }
    ensures rules { switch.new.rules ≡ switch.old.rules }
    ensures so_far { OnOk result (RunGoesOn L.state switch.old switch.new links.old links.new lanes.old lanes.new) }
    ensures stopped { OnErr result (most + 1 < 2 ^ 64 → ((k : ℕ) → DidBetween 0 most lanes.old k)
        → RunStops L.state switch.old switch.new links.old links.new lanes.old most) }
    ensures fault { IfErr result (λ fault. IsSwitchFault fault switch.new.journal) }
    ensures turns { OnOk result (KeepsTurns most lanes.old lanes.new) }
    ensures turned { OnOk result (TurnsOnce most asked lanes.old lanes.new) }
{
    let mut any = false;
    for at in 0..links.len() {
        let port = at as u8 + 1;
        match read_ready(
            switch,
            &mut lanes[at],
            &mut links[at],
            port,
            most,
            at == asked,
            &mut room.buffer,
            &mut room.found,
        ) {
            Ok(read) => any |= read,
            Err(fault) => return Err(fault),
        }
    }
    Ok(any)
}

/// Writes all that is waiting, in the order of the ports.
pub(crate) fn write_each<L: Link>(
    switch: &mut Switch<'_>,
    lanes: &mut [Lane],
    links: &mut [L],
    batch: &mut Batch,
)
    requires lanes { length lanes.old ≡ length links.old }
    requires ports { length links.old ≤ switch.old.rules.ports }
    requires few { length links.old ≤ 8 }
    ensures rules { switch.new.rules ≡ switch.old.rules }
    ensures so_far { RunGoesOn L.state switch.old switch.new links.old links.new lanes.old lanes.new }
    ensures turned { (turns : ℕ) → AllTurned lanes.old turns → AllTurned lanes.new turns }
    ensures drained { (k : ℕ) → k < length lanes.new → IsDrained switch.new lanes.new k }
{
    for at in 0..links.len() {
        let port = at as u8 + 1;
        write_port(switch, &mut lanes[at], &mut links[at], port, batch);
    }
}

/// Writes what is waiting and can be written at once, in the order of the ports.
pub(crate) fn write_each_now<L: Link>(
    switch: &mut Switch<'_>,
    lanes: &mut [Lane],
    links: &mut [L],
    batch: &mut Batch,
)
    requires lanes { length lanes.old ≡ length links.old }
    requires ports { length links.old ≤ switch.old.rules.ports }
    requires few { length links.old ≤ 8 }
    ensures rules { switch.new.rules ≡ switch.old.rules }
    ensures so_far { RunGoesOn L.state switch.old switch.new links.old links.new lanes.old lanes.new }
    ensures turns { (most : ℕ) → KeepsTurns most lanes.old lanes.new }
{
    for at in 0..links.len() {
        let port = at as u8 + 1;
        write_port_now(switch, &mut lanes[at], &mut links[at], port, batch);
    }
}

/// Reads each port that is ready, and the one that is asked, and writes what can be written at once. Returns whether
/// any was read.
pub(crate) fn pass<L: Link>(
    switch: &mut Switch<'_>,
    lanes: &mut [Lane],
    links: &mut [L],
    room: &mut Room,
    most: u64,
    asked: usize,
) -> Result<bool, SwitchFault>
    requires lanes { length lanes.old ≡ length links.old }
    requires ports { length links.old ≤ switch.old.rules.ports }
    requires few { length links.old ≤ 8 }
    ensures rules { switch.new.rules ≡ switch.old.rules }
    ensures so_far { OnOk result (RunGoesOn L.state switch.old switch.new links.old links.new lanes.old lanes.new) }
    ensures stopped { OnErr result (most + 1 < 2 ^ 64 → ((k : ℕ) → DidBetween 0 most lanes.old k)
        → RunStops L.state switch.old switch.new links.old links.new lanes.old most) }
    ensures fault { IfErr result (λ fault. IsSwitchFault fault switch.new.journal) }
    ensures turns { OnOk result (KeepsTurns most lanes.old lanes.new) }
    ensures turned { OnOk result (TurnsOnce most asked lanes.old lanes.new) }
{
    match read_each(switch, lanes, links, room, most, asked) {
        Ok(any) => {
            write_each_now(switch, lanes, links, &mut room.batch);
            Ok(any)
        }
        Err(fault) => Err(fault),
    }
}
