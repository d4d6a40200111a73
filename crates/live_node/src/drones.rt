// A drone on a link.
ghost use Rattle.std.specs.Prelude.{◌≡◌, List, [], MatchResult};
ghost use Rattle.std.specs.Result.{result_err};
ghost use Rattle.mav_nodes.specs.Nodes.{DroneSide};
ghost use Rattle.node_reports.specs.Nodes.{Node, Drone as StateDrone};
ghost use Rattle.live_node.specs.Calls.{LiveCall};
ghost use Rattle.live_node.specs.Ports.{IsRunEnd};
ghost use Rattle.live_node.specs.Runs.{Outside, Ends, LinkRun, outside, stores_of};
ghost use Rattle.live_node.specs.Progress.{Between, TurnsStopped, TurnsRan, Opened};
ghost use Rattle.live_node.specs.Drones.{DroneLived, DroneRuns, NewDroneRuns, IsDroneEnd, start_end};

use crate::nodes::{Due, LiveNode};
use crate::run_log::RunLog;
use crate::turns::{PIECE_BYTES, call, turn};
use mav_links::Link;
use mav_names::drone_name;
use mav_nodes::{DroneNode, StartFault};
use mav_ports::{Clock, Sink};
use mav_sign::Key;
use plan_store::{Keeper, MemKeeper};
use run_status::{InputError, LiveEnd, Place, Reason, RunEnd};
use std::alloc::Global;

/// A drone's system, and how many reads may be made of a port that hasn't ended.
#[derive(Clone, Copy)]
pub struct DronePlan {
    pub sys: u8,
    pub turns: u64,
}

// How a run ends whose drone doesn't start.
fn start_end(fault: StartFault) -> RunEnd
    ensures { result ≡ start_end fault }
{
    match fault {
        StartFault::Store => RunEnd::Live(LiveEnd::StoreFault),
        StartFault::BadKept => RunEnd::Stopped(InputError::Bad(Place::Store, Reason::Kept)),
        StartFault::NoMemory => RunEnd::NoMemory,
    }
}

// At most so many turns. Returns whether the link hasn't ended after them.
fn run_turns<L: Link, K: Sink, C: Clock, S: Keeper>(
    live: &mut LiveNode,
    run_log: &mut RunLog,
    turns: u64,
    link: &mut L,
    out: &mut K,
    clock: &mut C,
    keeper: &mut S,
) -> Result<bool, RunEnd>
    ensures did { (before : S) (start : Node) (opening : List LiveCall) (first : Outside)
        → Between (stores_of S.faults S.is_infallible S.contents) before keeper.old start opening [] [] live.old
        run_log.old first (outside (L.state link.old) (K.sent out.old) (C.always clock.old))
        → MatchResult result
        (λ goes_on. TurnsRan goes_on (stores_of S.faults S.is_infallible S.contents) before keeper.new start opening
        turns live.new run_log.new first (outside (L.state link.new) (K.sent out.new) (C.always clock.new)))
        (λ end. TurnsStopped (stores_of S.faults S.is_infallible S.contents) before keeper.new end start opening turns
        first (outside (L.state link.new) (K.sent out.new) (C.always clock.new))) }
    ensures ends { Ends IsRunEnd result (outside (L.state link.old) (K.sent out.old) (C.always clock.old))
        (outside (L.state link.new) (K.sent out.new) (C.always clock.new)) (K.faults out.old) (K.faults out.new) }
{
    let mut buf = [0u8; PIECE_BYTES];
    'turns: for _at in 0..turns {
        match turn(live, run_log, &mut buf, link, out, clock, keeper) {
            Ok(true) => {}
            Ok(false) => return Ok(false),
            Err(end) => return Err(end),
        }
    }
    Ok(true)
}

// The first heartbeat, and the turns.
fn run_live<L: Link, K: Sink, C: Clock, S: Keeper>(
    live: &mut LiveNode,
    run_log: &mut RunLog,
    turns: u64,
    link: &mut L,
    out: &mut K,
    clock: &mut C,
    keeper: &mut S,
) -> Result<(), RunEnd>
    ensures ran { (before : S) (start : DroneSide)
        → Opened (stores_of S.faults S.is_infallible S.contents) before keeper.old
        (StateDrone start) live.old run_log.old (outside (L.state link.old) (K.sent out.old) (C.always clock.old))
        → DroneLived (stores_of S.faults S.is_infallible S.contents) before keeper.new turns start (result_err result)
        (outside (L.state link.old) (K.sent out.old) (C.always clock.old))
        (outside (L.state link.new) (K.sent out.new) (C.always clock.new)) }
    ensures ends { Ends (IsDroneEnd turns) result (outside (L.state link.old) (K.sent out.old) (C.always clock.old))
        (outside (L.state link.new) (K.sent out.new) (C.always clock.new)) (K.faults out.old) (K.faults out.new) }
{
    match call(live, run_log, Due::Heartbeat, link, out, clock, keeper) {
        Ok(()) => {}
        Err(end) => return Err(end),
    }
    match run_turns(live, run_log, turns, link, out, clock, keeper) {
        Ok(true) => Err(RunEnd::Live(LiveEnd::PortTurns(turns))),
        Ok(false) => Ok(()),
        Err(end) => Err(end),
    }
}

/// Runs the drone of a system on a link, for at most so many reads, with the plans that its store has: at the link's
/// end it is done. It starts disarmed at 0 0, and sends a heartbeat at its start and whenever the link is idle.
pub fn run_drone<L: Link, K: Sink, C: Clock, S: Keeper>(
    alloc: Global,
    key: Key,
    plan: DronePlan,
    link: &mut L,
    out: &mut K,
    clock: &mut C,
    keeper: &mut S,
) -> Result<(), RunEnd>
    ensures { LinkRun (DroneRuns (stores_of S.faults S.is_infallible S.contents) key plan keeper.old keeper.new)
        (IsDroneEnd plan.turns) result (outside (L.state link.old) (K.sent out.old) (C.always clock.old))
        (outside (L.state link.new) (K.sent out.new) (C.always clock.new)) (K.faults out.old) (K.faults out.new) }
{
    match DroneNode::start(alloc, key, plan.sys, 0, 0, keeper) {
        Ok(drone) => {
            let mut run_log = RunLog::new(alloc, drone_name(plan.sys));
            let mut live = LiveNode::Drone(drone);
            let ended = run_live(
                &mut live,
                &mut run_log,
                plan.turns,
                link,
                out,
                clock,
                keeper,
            );
            live.discard();
            ended
        }
        Err(fault) => Err(start_end(fault)),
    }
}

/// Runs a drone that starts without plans and keeps them in memory.
pub fn run_new_drone<L: Link, K: Sink, C: Clock>(
    alloc: Global,
    key: Key,
    plan: DronePlan,
    link: &mut L,
    out: &mut K,
    clock: &mut C,
) -> Result<(), RunEnd>
    ensures { LinkRun (NewDroneRuns key plan) (IsDroneEnd plan.turns) result
        (outside (L.state link.old) (K.sent out.old) (C.always clock.old))
        (outside (L.state link.new) (K.sent out.new) (C.always clock.new)) (K.faults out.old) (K.faults out.new) }
{
    let mut keeper = MemKeeper::new(alloc, Vec::new(alloc), Vec::new(alloc));
    run_drone(alloc, key, plan, link, out, clock, &mut keeper)
}
