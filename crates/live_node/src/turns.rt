// The turns of a live node.
ghost use Rattle.std.specs.Prelude.{◌≡◌, ◌<◌, ◌≤◌, ◌++◌, [], ℕ, List, length, MatchResult};
ghost use Rattle.mav_frame.specs.declared.events.Event.{Event};
ghost use Rattle.mav_sign.specs.Streams.{reader_of};
ghost use Rattle.node_reports.specs.Nodes.{Node};
ghost use Rattle.live_node.specs.Nodes.{HasHeard, end_of};
ghost use Rattle.live_node.specs.Calls.{LiveCall};
ghost use Rattle.live_node.specs.Ports.{SameRead, IsRunEnd};
ghost use Rattle.live_node.specs.Runs.{Outside, Ends, outside, stores_of};
ghost use Rattle.live_node.specs.Turns.{Turn};
ghost use Rattle.live_node.specs.Progress.{Output, CallDone, CallStopped, WaitDone, WaitStopped, HeardPiece};
ghost use Rattle.live_node.specs.Progress.{PieceStopped, Between, Turned, TurnStops, due_call};

use crate::ends::end_by;
use crate::nodes::{Due, LiveNode};
use crate::run_log::RunLog;
use mav_links::Link;
use mav_ports::{Clock, Got, Sink};
use plan_store::Keeper;
use run_status::{LiveEnd, RunEnd};

/// A read asks for so many bytes.
pub(crate) const PIECE_BYTES: usize = 4096;

/// A call that is due, and what it tells.
pub(crate) fn call<L: Link, K: Sink, C: Clock, S: Keeper>(
    live: &mut LiveNode,
    run_log: &mut RunLog,
    due: Due,
    link: &mut L,
    out: &mut K,
    clock: &mut C,
    keeper: &mut S,
) -> Result<(), RunEnd>
    ensures did { (before : S) (start : Node) (made : List LiveCall) (first : Outside)
        → Output (stores_of S.faults S.is_infallible S.contents) before keeper.old start made live.old run_log.old
        first
        (outside (L.state link.old) (K.sent out.old) (C.always clock.old))
        → MatchResult result
        (λ _. CallDone (stores_of S.faults S.is_infallible S.contents) before keeper.new start made
        (due_call due) live.new run_log.new first (outside (L.state link.new) (K.sent out.new) (C.always clock.new)))
        (λ end. CallStopped (stores_of S.faults S.is_infallible S.contents) before keeper.new end start made
        (due_call due) first (outside (L.state link.new) (K.sent out.new) (C.always clock.new))) }
    ensures unread { SameRead (L.state link.old) (L.state link.new) }
    ensures reader { reader_of (end_of live.new).endpoint ≡ reader_of (end_of live.old).endpoint }
    ensures ends { Ends IsRunEnd result (outside (L.state link.old) (K.sent out.old) (C.always clock.old))
        (outside (L.state link.new) (K.sent out.new) (C.always clock.new)) (K.faults out.old) (K.faults out.new) }
{
    let now = clock.now();
    match live.call(run_log.alloc, due, now, keeper) {
        Ok(news) => {
            run_log.count(due);
            run_log.tell(live.params(), link, out, &news)
        }
        Err(fault) => Err(end_by(fault)),
    }
}

/// Time passes: a tick, a heartbeat, and a tick of a drone's simulator.
pub(crate) fn wait<L: Link, K: Sink, C: Clock, S: Keeper>(
    live: &mut LiveNode,
    run_log: &mut RunLog,
    link: &mut L,
    out: &mut K,
    clock: &mut C,
    keeper: &mut S,
) -> Result<(), RunEnd>
    ensures did { (before : S) (start : Node) (made : List LiveCall) (first : Outside)
        → Output (stores_of S.faults S.is_infallible S.contents) before keeper.old start made live.old run_log.old
        first
        (outside (L.state link.old) (K.sent out.old) (C.always clock.old))
        → MatchResult result
        (λ _. WaitDone (stores_of S.faults S.is_infallible S.contents) before keeper.new start made live.new
        run_log.new
        first (outside (L.state link.new) (K.sent out.new) (C.always clock.new)))
        (λ end. WaitStopped (stores_of S.faults S.is_infallible S.contents) before keeper.new end start made first
        (outside (L.state link.new) (K.sent out.new) (C.always clock.new))) }
    ensures unread { SameRead (L.state link.old) (L.state link.new) }
    ensures reader { reader_of (end_of live.new).endpoint ≡ reader_of (end_of live.old).endpoint }
    ensures ends { Ends IsRunEnd result (outside (L.state link.old) (K.sent out.old) (C.always clock.old))
        (outside (L.state link.new) (K.sent out.new) (C.always clock.new)) (K.faults out.old) (K.faults out.new) }
{
    call(live, run_log, Due::Tick, link, out, clock, keeper)?;
    call(live, run_log, Due::Heartbeat, link, out, clock, keeper)?;
    call(live, run_log, Due::Sim, link, out, clock, keeper)
}

// A piece was read.
fn hear<L: Link, K: Sink, C: Clock, S: Keeper>(
    live: &mut LiveNode,
    run_log: &mut RunLog,
    piece: &[u8],
    link: &mut L,
    out: &mut K,
    clock: &mut C,
    keeper: &mut S,
) -> Result<(), RunEnd>
    ensures did { (before : S) (start : Node) (made : List LiveCall) (first : Outside) (extras : List (ℕ × ℕ))
        (taken : List ℕ) (given : List Event)
        → Output (stores_of S.faults S.is_infallible S.contents) before keeper.old start made live.old run_log.old
        first
        (outside (L.state link.old) (K.sent out.old) (C.always clock.old)) → (end_of live.old).endpoint.extras ≡ extras
        → HasHeard taken given live.old
        → MatchResult result
        (λ _. HeardPiece (stores_of S.faults S.is_infallible S.contents) before keeper.new extras start made
        (taken ++ piece.now) given live.new run_log.new first
        (outside (L.state link.new) (K.sent out.new) (C.always clock.new)))
        (λ end. PieceStopped (stores_of S.faults S.is_infallible S.contents) before keeper.new end extras taken given
        piece.now start made first (outside (L.state link.new) (K.sent out.new) (C.always clock.new))) }
    ensures unread { SameRead (L.state link.old) (L.state link.new) }
    ensures ends { Ends IsRunEnd result (outside (L.state link.old) (K.sent out.old) (C.always clock.old))
        (outside (L.state link.new) (K.sent out.new) (C.always clock.new)) (K.faults out.old) (K.faults out.new) }
{
    let now = clock.now();
    match live.part(piece, now, keeper) {
        Ok(news) => run_log.tell(live.params(), link, out, &news),
        Err(fault) => Err(end_by(fault)),
    }
}

/// One read, and what it leads to. Returns whether the link hasn't ended.
pub(crate) fn turn<L: Link, K: Sink, C: Clock, S: Keeper>(
    live: &mut LiveNode,
    run_log: &mut RunLog,
    buf: &mut [u8],
    link: &mut L,
    out: &mut K,
    clock: &mut C,
    keeper: &mut S,
) -> Result<bool, RunEnd>
    requires least { 0 < length buf.old }
    requires most { length buf.old ≤ 4096 }
    ensures did { (before : S) (start : Node) (opening : List LiveCall) (turns : List Turn) (first : Outside)
        → Between (stores_of S.faults S.is_infallible S.contents) before keeper.old start opening turns [] live.old
        run_log.old first (outside (L.state link.old) (K.sent out.old) (C.always clock.old))
        → MatchResult result
        (λ goes_on. Turned goes_on (stores_of S.faults S.is_infallible S.contents) before keeper.new start opening
        turns
        live.new run_log.new first (outside (L.state link.new) (K.sent out.new) (C.always clock.new)))
        (λ end. TurnStops (stores_of S.faults S.is_infallible S.contents) before keeper.new end start opening turns
        first (outside (L.state link.new) (K.sent out.new) (C.always clock.new))) }
    ensures ends { Ends IsRunEnd result (outside (L.state link.old) (K.sent out.old) (C.always clock.old))
        (outside (L.state link.new) (K.sent out.new) (C.always clock.new)) (K.faults out.old) (K.faults out.new) }
{
    match link.read(buf) {
        Got::Bytes(count) => match hear(live, run_log, &buf[..count], link, out, clock, keeper) {
            Ok(()) => Ok(true),
            Err(end) => Err(end),
        },
        Got::Idle => match wait(live, run_log, link, out, clock, keeper) {
            Ok(()) => Ok(true),
            Err(end) => Err(end),
        },
        Got::End => Ok(false),
        Got::Failed => Err(RunEnd::Live(LiveEnd::PortFault)),
    }
}
