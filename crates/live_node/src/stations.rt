// A station on a link.
ghost use Rattle.std.specs.Prelude.{◌≡◌, ◌⊎◌, ℕ, List, [], None, IfErr, OnOk, MatchResult};
ghost use Rattle.std.specs.declared.option.Option.{Option};
ghost use Rattle.std.specs.Result.{result_err};
ghost use Rattle.mav_links.specs.Links.{LinkState};
ghost use Rattle.mav_sign.specs.Streams.{reader_of};
ghost use Rattle.node_reports.specs.Nodes.{Node};
ghost use Rattle.live_node.specs.Nodes.{end_of};
ghost use Rattle.live_node.specs.Calls.{LiveCall};
ghost use Rattle.live_node.specs.Turns.{Turn};
ghost use Rattle.live_node.specs.Ports.{PrintedBy, PrintFaults, FaultsBy, SameRead, IsRunEnd};
ghost use Rattle.live_node.specs.Runs.{Outside, Ends, LinkRun, outside, stores_of};
ghost use Rattle.live_node.specs.Progress.{Output, Between, PortEnded, Opened};
ghost use Rattle.live_node.specs.Waiting.{OrderDone, OrderStopped, Watched, WatchStopped, Outlasted, OutlastStopped};
ghost use Rattle.live_node.specs.Waiting.{WaitedFor};
ghost use Rattle.live_node.specs.Stations.{StationLived, StationRuns, IsOrderEnd, IsWaitedEnd, IsStationEnd, Awaited};
ghost use Rattle.live_node.specs.Stations.{Gives, verdict, judged};

use crate::ends::order_end;
use crate::nodes::{Due, LiveNode};
use crate::run_log::RunLog;
use crate::turns::{PIECE_BYTES, call, turn, wait};
use field_layout::Label;
use mav_links::Link;
use mav_names::{Stream, node_of};
use mav_nodes::{Order, StationNode};
use mav_ports::{Clock, Sink, write_all};
use mav_sign::Key;
use plan_store::{Keeper, MemKeeper};
use run_status::{LiveEnd, RunEnd};
use std::alloc::Global;

/// A station's system and component, how many ticks it waits for the end of its operation, and how many reads may be
/// made of a port that hasn't ended.
#[derive(Clone, Copy)]
pub struct StationPlan {
    pub sys: u8,
    pub comp: u8,
    pub ticks: u64,
    pub turns: u64,
}

// The order is given, and what it tells is told.
fn obey<L: Link, K: Sink, C: Clock, S: Keeper>(
    live: &mut LiveNode,
    run_log: &mut RunLog,
    order: Order,
    link: &mut L,
    out: &mut K,
    clock: &mut C,
    keeper: &S,
) -> Result<(), RunEnd>
    ensures did { (before : S) (start : Node) (made : List LiveCall) (first : Outside)
        → (o : Output (stores_of S.faults S.is_infallible S.contents) before keeper.now start made live.old run_log.old
        first (outside (L.state link.old) (K.sent out.old) (C.always clock.old)))
        → MatchResult result
        (λ _. OrderDone (stores_of S.faults S.is_infallible S.contents) before keeper.now start made o.node order
        live.new run_log.new first (outside (L.state link.new) (K.sent out.new) (C.always clock.new)))
        (λ end. OrderStopped (stores_of S.faults S.is_infallible S.contents) before keeper.now end start made o.node
        order first (outside (L.state link.new) (K.sent out.new) (C.always clock.new))) }
    ensures unread { SameRead (L.state link.old) (L.state link.new) }
    ensures reader { OnOk result (reader_of (end_of live.new).endpoint ≡ reader_of (end_of live.old).endpoint) }
    ensures ends { Ends IsOrderEnd result (outside (L.state link.old) (K.sent out.old) (C.always clock.old))
        (outside (L.state link.new) (K.sent out.new) (C.always clock.new)) (K.faults out.old) (K.faults out.new) }
{
    let now = clock.now();
    match live.order(run_log.alloc, order, now) {
        Ok(news) => run_log.tell(live.params(), link, out, &news),
        Err(fault) => Err(order_end(fault)),
    }
}

// Turns until the verdict, or until no more reads may be made. Returns whether the link hasn't ended.
fn watch<L: Link, K: Sink, C: Clock, S: Keeper>(
    live: &mut LiveNode,
    run_log: &mut RunLog,
    plan: StationPlan,
    link: &mut L,
    out: &mut K,
    clock: &mut C,
    keeper: &mut S,
) -> Result<bool, RunEnd>
    ensures did { (before : S) (start : Node) (opening : List LiveCall) (first : Outside)
        → Between (stores_of S.faults S.is_infallible S.contents) before keeper.old start opening [] [] live.old
        run_log.old first (outside (L.state link.old) (K.sent out.old) (C.always clock.old))
        → MatchResult result
        (λ goes_on. Watched goes_on (stores_of S.faults S.is_infallible S.contents) before keeper.new plan start
        opening
        live.new run_log.new first (outside (L.state link.new) (K.sent out.new) (C.always clock.new)))
        (λ end. WatchStopped (stores_of S.faults S.is_infallible S.contents) before keeper.new end plan start opening
        first (outside (L.state link.new) (K.sent out.new) (C.always clock.new))) }
    ensures ends { Ends IsRunEnd result (outside (L.state link.old) (K.sent out.old) (C.always clock.old))
        (outside (L.state link.new) (K.sent out.new) (C.always clock.new)) (K.faults out.old) (K.faults out.new) }
{
    let mut buf = [0u8; PIECE_BYTES];
    'turns: for _at in 0..plan.turns {
        if run_log.is_over(plan.ticks) {
            return Ok(true);
        }
        match turn(live, run_log, &mut buf, link, out, clock, keeper) {
            Ok(true) => {}
            Ok(false) => return Ok(false),
            Err(end) => return Err(end),
        }
    }
    Ok(true)
}

// The link has ended: time passes until the verdict.
fn outlast<L: Link, K: Sink, C: Clock, S: Keeper>(
    live: &mut LiveNode,
    run_log: &mut RunLog,
    most: u64,
    link: &mut L,
    out: &mut K,
    clock: &mut C,
    keeper: &mut S,
) -> Result<(), RunEnd>
    ensures did { (before : S) (start : Node) (opening : List LiveCall) (turns : List Turn) (first : Outside)
        → PortEnded (stores_of S.faults S.is_infallible S.contents) before keeper.old start opening turns [] live.old
        run_log.old first (outside (L.state link.old) (K.sent out.old) (C.always clock.old))
        → Awaited most start opening turns []
        → MatchResult result
        (λ _. Outlasted (stores_of S.faults S.is_infallible S.contents) before keeper.new most start opening turns
        live.new run_log.new first (outside (L.state link.new) (K.sent out.new) (C.always clock.new)))
        (λ end. OutlastStopped (stores_of S.faults S.is_infallible S.contents) before keeper.new end most start opening
        turns first (outside (L.state link.new) (K.sent out.new) (C.always clock.new))) }
    ensures ends { Ends IsRunEnd result (outside (L.state link.old) (K.sent out.old) (C.always clock.old))
        (outside (L.state link.new) (K.sent out.new) (C.always clock.new)) (K.faults out.old) (K.faults out.new) }
{
    'ticks: for _at in 0..most {
        if run_log.is_over(most) {
            return Ok(());
        }
        match wait(live, run_log, link, out, clock, keeper) {
            Ok(()) => {}
            Err(end) => return Err(end),
        }
    }
    Ok(())
}

// The verdict; without one all turns were taken.
fn judge(run_log: &mut RunLog, plan: StationPlan) -> Result<Label, RunEnd>
    ensures { result ≡ judged plan (verdict plan.ticks run_log.old.ticks run_log.old.ending) }
{
    match run_log.verdict(plan.ticks) {
        Some(said) => said,
        None => Err(RunEnd::Live(LiveEnd::PortTurns(plan.turns))),
    }
}

// Waits for the end of the order, and returns the bytes that it gave.
fn wait_for<L: Link, K: Sink, C: Clock, S: Keeper>(
    live: &mut LiveNode,
    run_log: &mut RunLog,
    plan: StationPlan,
    link: &mut L,
    out: &mut K,
    clock: &mut C,
    keeper: &mut S,
) -> Result<Label, RunEnd>
    ensures waited { (before : S) (start : Node) (opening : List LiveCall) (first : Outside)
        → Between (stores_of S.faults S.is_infallible S.contents) before keeper.old start opening [] [] live.old
        run_log.old first (outside (L.state link.old) (K.sent out.old) (C.always clock.old))
        → WaitedFor (stores_of S.faults S.is_infallible S.contents) before keeper.new plan start opening result first
        (outside (L.state link.new) (K.sent out.new) (C.always clock.new)) }
    ensures ends { Ends IsWaitedEnd result (outside (L.state link.old) (K.sent out.old) (C.always clock.old))
        (outside (L.state link.new) (K.sent out.new) (C.always clock.new)) (K.faults out.old) (K.faults out.new) }
{
    match watch(live, run_log, plan, link, out, clock, keeper) {
        Ok(true) => judge(run_log, plan),
        Ok(false) => match outlast(live, run_log, plan.ticks, link, out, clock, keeper) {
            Ok(()) => judge(run_log, plan),
            Err(end) => Err(end),
        },
        Err(end) => Err(end),
    }
}

// The heartbeat, the order, and the wait.
fn run_live<L: Link, K: Sink, C: Clock, S: Keeper>(
    live: &mut LiveNode,
    run_log: &mut RunLog,
    plan: StationPlan,
    order: Order,
    link: &mut L,
    out: &mut K,
    clock: &mut C,
    keeper: &mut S,
) -> Result<Label, RunEnd>
    ensures ran { (before : S) (start : Node)
        → Opened (stores_of S.faults S.is_infallible S.contents) before keeper.old start live.old run_log.old
        (outside (L.state link.old) (K.sent out.old) (C.always clock.old))
        → StationLived (stores_of S.faults S.is_infallible S.contents) before keeper.new plan order start result
        (outside (L.state link.old) (K.sent out.old) (C.always clock.old))
        (outside (L.state link.new) (K.sent out.new) (C.always clock.new)) }
    ensures ends { Ends (λ end. (end ≡ RunEnd.Live LiveEnd.StoreFault) ⊎ IsStationEnd end) result
        (outside (L.state link.old) (K.sent out.old) (C.always clock.old))
        (outside (L.state link.new) (K.sent out.new) (C.always clock.new)) (K.faults out.old) (K.faults out.new) }
{
    match call(live, run_log, Due::Heartbeat, link, out, clock, keeper) {
        Ok(()) => {}
        Err(end) => return Err(end),
    }
    match obey(live, run_log, order, link, out, clock, keeper) {
        Ok(()) => wait_for(live, run_log, plan, link, out, clock, keeper),
        Err(end) => Err(end),
    }
}

fn write_given<K: Sink>(bytes: &Label, out: &mut K) -> Result<(), RunEnd>
    ensures printed { PrintedBy (result_err result) (K.sent out.old) (K.sent out.new) bytes.now }
    ensures faults { PrintFaults (result_err result) (K.faults out.old) (K.faults out.new) }
    ensures end { IfErr result (λ end. end ≡ RunEnd.WriteFault) }
{
    write_all(out, bytes.bytes())?;
    Ok(())
}

// Writes the bytes that an operation gave.
fn give<K: Sink>(ended: Result<Label, RunEnd>, out: &mut K) -> Result<(), RunEnd>
    ensures gives { (link : LinkState) (time : Option ℕ)
        → Gives ended (result_err result) (outside link (K.sent out.old) time) (outside link (K.sent out.new) time) }
    ensures end { IfErr ended IsStationEnd → IfErr result IsStationEnd }
    ensures faults { (port_before port_after before : ℕ)
        → FaultsBy (result_err ended) port_before port_after before (K.faults out.old)
        → FaultsBy (result_err result) port_before port_after before (K.faults out.new) }
{
    match ended {
        Ok(bytes) => write_given(&bytes, out),
        Err(end) => Err(end),
    }
}

/// Runs a station on a link: it sends a heartbeat, gives its order, and takes turns until this has an end. After the
/// link's end only time passes. The bytes that the order gave are written after all lines. It stores nothing.
pub fn run_station<L: Link, K: Sink, C: Clock>(
    alloc: Global,
    key: Key,
    plan: StationPlan,
    order: Order,
    link: &mut L,
    out: &mut K,
    clock: &mut C,
) -> Result<(), RunEnd>
    ensures { LinkRun (StationRuns key plan order) IsStationEnd result
        (outside (L.state link.old) (K.sent out.old) (C.always clock.old))
        (outside (L.state link.new) (K.sent out.new) (C.always clock.new)) (K.faults out.old) (K.faults out.new) }
{
    let boot = clock.now();
    let me = Stream {
        sys: plan.sys,
        comp: plan.comp,
        link: 0,
    };
    let mut live = LiveNode::Station(StationNode::new(alloc, key, me, boot)?);
    let mut run_log = RunLog::new(alloc, node_of(me));
    let mut keeper = MemKeeper::new(alloc, Vec::new(alloc), Vec::new(alloc));
    let ended = run_live(
        &mut live,
        &mut run_log,
        plan,
        order,
        link,
        out,
        clock,
        &mut keeper,
    );
    live.discard();
    give(ended, out)
}
