// A run of a router.
ghost use Rattle.std.specs.Prelude.{◌≡◌, ◌≤◌, ◌<◌, ◌+◌, ℕ, List, [], length, false, true, OnOk, OnErr, IfOk, IfErr};
ghost use Rattle.std.specs.Prelude.{slice_get, Some};
ghost use Rattle.mav_router.specs.Journal.{Rules, given_to, rules_of};
ghost use Rattle.mav_profile.specs.Messages.{extras_of};
ghost use Rattle.mav_router.specs.Runs.{IsNew, RunGoesOn, IsDrained, AllFresh, AllTurned};
ghost use Rattle.mav_router.specs.Ends.{end_by};
ghost use Rattle.mav_router.specs.Faults.{IsSwitchFault, RunStops};
ghost use Rattle.mav_router.specs.Routed.{CanRoute, HasEnded, PortsEnded};

use crate::lane::Lane;
use crate::parts::Room;
use crate::resting::join_rests;
use crate::rounds::write_each;
use crate::waiting::run_ports;
use crate::{
    How, Journal, NoMemory, PortEnd, RouteEnd, RouteFault, RoutePlan, Switch, SwitchFault,
};
use dialect::Dialect;
use link_table::Ways;
use mav_links::Link;
use mav_sign::Key;
use mav_stream::PieceReader;
use std::alloc::Global;

/// Whether the port is still read.
pub(crate) fn is_live(lane: &Lane) -> bool
    ensures over { result ≡ false → lane.now.ended ≡ false → lane.now.failed ≡ false → ⊥ }
    ensures live { result ≡ true → lane.now.ended ≡ false }
    ensures fine { result ≡ true → lane.now.failed ≡ false }
{
    !lane.ended && !lane.failed
}

// Reads each port as often as it may be read, and writes all that comes of it.
fn run_rounds<L: Link>(
    switch: &mut Switch<'_>,
    lanes: &mut [Lane],
    links: &mut [L],
    room: &mut Room,
    turns: u64,
) -> Result<(), SwitchFault>
    requires lanes { length lanes.old ≡ length links.old }
    requires ports { length links.old ≤ switch.old.rules.ports }
    requires few { length links.old ≤ 8 }
    requires turned { AllTurned lanes.old 0 }
    requires turns { turns ≤ 1_000_000_000 }
    ensures rules { switch.new.rules ≡ switch.old.rules }
    ensures so_far { OnOk result (RunGoesOn L.state switch.old switch.new links.old links.new lanes.old lanes.new) }
    ensures stopped { OnErr result (RunStops L.state switch.old switch.new links.old links.new lanes.old turns) }
    ensures fault { IfErr result (λ fault. IsSwitchFault fault switch.new.journal) }
    ensures drained { OnOk result ((k : ℕ) → k < length lanes.new → IsDrained switch.new lanes.new k) }
    ensures turned { OnOk result (AllTurned lanes.new turns) }
{
    join_rests(links, turns);
    if let Err(fault) = run_ports(switch, lanes, links, room, turns) {
        return Err(fault);
    }
    write_each(switch, lanes, links, &mut room.batch);
    Ok(())
}

/// The end of a port.
pub(crate) fn end_of(lane: &Lane, turns: u64) -> PortEnd
    ensures { result ≡ end_by lane.now turns }
{
    let how = if lane.failed {
        How::Failed
    } else if lane.ended {
        How::Ended
    } else {
        How::Turns(turns)
    };
    PortEnd {
        read: lane.read,
        skipped: lane.skipped,
        written: lane.written,
        how,
    }
}

fn ends_of(alloc: Global, lanes: &[Lane], turns: u64) -> Result<Vec<PortEnd>, NoMemory>
    ensures length { IfOk result (λ ends. length ends.items ≡ length lanes.now) }
    ensures each { IfOk result (λ ends. (k : ℕ) (lane : _) (end : PortEnd) → slice_get lanes.now k ≡ Some lane
        → slice_get ends.items k ≡ Some end → end ≡ end_by lane turns) }
{
    let mut ends = Vec::new(alloc);
    for at in 0..lanes.len() {
        ends.push(end_of(&lanes[at], turns))?;
    }
    Ok(ends)
}

// Before the first read of a port.
fn new_lane(alloc: Global, known: &Dialect, old: bool) -> Result<Lane, NoMemory>
    ensures { IfOk result (λ lane. IsNew (extras_of known.now) old lane) }
{
    let scanner = PieceReader::new(alloc, known.extras().copy()?, old)?;
    Ok(Lane {
        scanner,
        ended: false,
        failed: false,
        turns: 0,
        read: 0,
        skipped: 0,
        written: 0,
    })
}

/// The same of so many ports.
pub(crate) fn new_lanes(
    alloc: Global,
    known: &Dialect,
    plain: Ways,
    count: usize,
) -> Result<Vec<Lane>, NoMemory>
    requires { count ≤ 8 }
    ensures length { IfOk result (λ lanes. length lanes.items ≡ count) }
    ensures fresh { IfOk result (λ lanes. (key : List ℕ) (ports : ℕ)
        → AllFresh (rules_of key known.now plain ports) lanes.items) }
    ensures turned { IfOk result (λ lanes. AllTurned lanes.items 0) }
{
    let mut lanes = Vec::new(alloc);
    for at in 0..count {
        lanes.push(new_lane(alloc, known, plain.has(at as u8 + 1))?)?;
    }
    Ok(lanes)
}

// Runs over new ports, and returns what became of each.
fn route_lanes<L: Link>(
    alloc: Global,
    switch: &mut Switch<'_>,
    lanes: &mut [Lane],
    links: &mut [L],
    room: &mut Room,
    turns: u64,
) -> Result<Vec<PortEnd>, SwitchFault>
    requires lanes { length lanes.old ≡ length links.old }
    requires ports { length links.old ≤ switch.old.rules.ports }
    requires some { 1 ≤ length links.old }
    requires few { length links.old ≤ 8 }
    requires journal { switch.old.journal ≡ [] }
    requires given { (port : ℕ) → given_to switch.old port ≡ [] }
    requires turned { AllTurned lanes.old 0 }
    requires turns { turns ≤ 1_000_000_000 }
    ensures rules { switch.new.rules ≡ switch.old.rules }
    ensures ended { (rules : Rules) → AllFresh rules lanes.old
        → PortsEnded result L.state rules turns links.old links.new switch.new.journal }
{
    if let Err(fault) = run_rounds(switch, lanes, links, room, turns) {
        return Err(fault);
    }
    let Ok(ends) = ends_of(alloc, lanes, turns) else {
        return Err(SwitchFault::NoMemory);
    };
    // That it has at most 1,000,000 entries makes the counts exact.
    let _entries = switch.journal();
    Ok(ends)
}

// Runs over a new switch, and returns what became of each port.
fn route_in<L: Link>(
    alloc: Global,
    known: &Dialect,
    switch: &mut Switch<'_>,
    links: &mut [L],
    room: &mut Room,
    plan: RoutePlan,
) -> Result<Vec<PortEnd>, SwitchFault>
    requires ports { length links.old ≤ switch.old.rules.ports }
    requires some { 1 ≤ length links.old }
    requires few { length links.old ≤ 8 }
    requires journal { switch.old.journal ≡ [] }
    requires given { (port : ℕ) → given_to switch.old port ≡ [] }
    requires turns { plan.turns ≤ 1_000_000_000 }
    ensures rules { switch.new.rules ≡ switch.old.rules }
    ensures ended { (key : List ℕ) (ports : ℕ)
        → PortsEnded result L.state (rules_of key known.now plan.plain ports) plan.turns links.old links.new
        switch.new.journal }
{
    let Ok(mut lanes) = new_lanes(alloc, known, plan.plain, links.len()) else {
        return Err(SwitchFault::NoMemory);
    };
    route_lanes(alloc, switch, lanes.as_mut_slice(), links, room, plan.turns)
}

/// Nothing was routed, since there was no memory.
pub(crate) fn no_memory(alloc: Global) -> RouteFault
    ensures why { result.why ≡ SwitchFault.NoMemory }
    ensures journal { result.journal ≡ [] }
{
    RouteFault {
        why: SwitchFault::NoMemory,
        journal: Journal::new(alloc),
    }
}

/// Routes between links on one thread, as [`route_one`] does.
pub fn route_links<L: Link>(
    alloc: Global,
    key: &Key,
    known: &Dialect,
    links: &mut [L],
    plan: RoutePlan,
) -> Result<RouteEnd, RouteFault>
    requires { CanRoute (length links.old) plan.turns }
    ensures { HasEnded result true L.state (rules_of key.now known.now plan.plain (length links.old))
        plan.turns links.old links.new }
{
    let Ok(mut room) = Room::new(alloc) else {
        return Err(no_memory(alloc));
    };
    let Ok(mut switch) = Switch::new(alloc, *key, known, links.len() as u8, plan.plain) else {
        return Err(no_memory(alloc));
    };
    match route_in(alloc, known, &mut switch, links, &mut room, plan) {
        Ok(ports) => Ok(RouteEnd {
            journal: switch.into_journal(),
            ports,
        }),
        Err(why) => Err(RouteFault {
            why,
            journal: switch.into_journal(),
        }),
    }
}

/// Routes between the ports on one thread, and returns what came in and what became of each port. A port is read
/// whenever a read needn't wait, and then all is written that needn't wait either, in the order of the ports; where
/// none is ready the thread rests. What is left in the end is written then, and waited for. A run that stops because
/// memory is out, or because the journal is full, gives back its journal so far.
pub fn route_one(
    alloc: Global,
    key: &Key,
    known: &Dialect,
    ports: &mut Vec<Box<dyn Link>>,
    plan: RoutePlan,
) -> Result<RouteEnd, RouteFault>
    requires { CanRoute (length ports.old.items) plan.turns }
    ensures { HasEnded result true state (rules_of key.now known.now plan.plain (length ports.old.items))
        plan.turns ports.old.items ports.new.items }
{
    route_links(alloc, key, known, ports.as_mut_slice(), plan)
}
