// A run of a router with a thread for each port.
ghost use Rattle.std.specs.Prelude.{◌≡◌, ◌≤◌, ◌<◌, ◌+◌, ℕ, List, [], length, replicate, false, OnOk, OnErr, slice_get};
ghost use Rattle.std.specs.Prelude.{Some, vec_len, vec_capacity};
ghost use Rattle.turnstile.specs.Participants.{opened};
ghost use Rattle.mav_router.specs.History.{history_of};
ghost use Rattle.mav_router.specs.Threads.{IsStocked, HasServed, HasClosed};
ghost use Rattle.mav_router.specs.Journal.{rules_of};
ghost use Rattle.mav_router.specs.Routed.{CanRoute, HasEnded};

use crate::closing::{first_fault, put_ends, write_each_left};
use crate::crew::{BoxedLink, Crew};
use crate::jobs::run_all;
use crate::joining::{Stock, dismiss, give_links, muster, new_stock};
use crate::parts::Side;
use crate::routing::no_memory;
use crate::signals::Signals;
use crate::{NoMemory, PortEnd, RouteEnd, RouteFault, RoutePlan, RouterRules, Switch, SwitchFault};
use dialect::Dialect;
use mav_links::Link;
use mav_sign::Key;
use std::alloc::Global;
use std::sync::Wait;
use std::thread::Threads;
use turnstile::{Turn, TurnSeat};

// Runs the threads of all ports. If there is no memory for that, the links stay where they are.
fn serve_ports<'a, 't, R: Threads + Wait + Sync>(
    rt: &R,
    alloc: Global,
    crew: &Crew<'a, 't>,
    stock: &mut Stock<BoxedLink>,
    seats: &mut Vec<TurnSeat<Switch<'a>>>,
    ports: &mut Vec<BoxedLink>,
) -> Result<(), NoMemory>
    requires stocked { IsStocked crew.now.rules.now stock.old }
    requires ports { crew.now.rules.now.ports ≡ length ports.old.items }
    requires to { crew.now.rules.now.ports ≤ 8 }
    requires seats { seats.old.items ≡ replicate crew.now.rules.now.ports
        (opened crew.now.turn.now.id (history_of crew.now.rules.now [])) }
    ensures served { OnOk result (HasServed state crew.now.turn.now crew.now.rules.now crew.now.turns ports.old.items
        stock.new.sides.items seats.new.items) }
    ensures moved { OnOk result (vec_len ports.new ≡ 0) }
    ensures room { OnOk result (vec_capacity ports.new ≡ vec_capacity ports.old) }
    ensures kept { OnErr result (ports.new.items ≡ ports.old.items) }
{
    let mut jobs = Vec::with_capacity(alloc, ports.len())?;
    muster(crew, stock, seats, ports, &mut jobs);
    run_all(rt, &mut jobs);
    dismiss(jobs, &mut stock.sides, seats);
    Ok(())
}

// Writes what is left, if no thread had a fault, and gives the links back.
fn finish<L: Link>(
    switch: Switch<'_>,
    sides: &mut Vec<Side<L>>,
    ends: Vec<PortEnd>,
    ports: &mut Vec<L>,
    turns: u64,
) -> Result<RouteEnd, RouteFault>
    requires few { vec_len sides.old ≤ 8 }
    requires within { (k : ℕ) (side : _) → slice_get sides.old.items k ≡ Some side
        → side.taken ≤ length switch.journal }
    requires new { (vec_len ends ≡ 0) × (vec_len ports.old ≡ 0) }
    requires end_room { vec_len sides.old ≤ vec_capacity ends }
    requires room { vec_len sides.old ≤ vec_capacity ports.old }
    requires turns { turns ≤ 1_000_000_000 }
    ensures { (before : List _) → HasClosed L.state switch.entry.rules turns switch.entry.journal before
        sides.old.items
        → HasEnded result false L.state switch.entry.rules turns before ports.new.items }
{
    match first_fault(sides.as_slice()) {
        Some(why) => {
            give_links(sides, ports);
            Err(RouteFault {
                why,
                journal: switch.into_journal(),
            })
        }
        None => {
            let mut ends = ends;
            write_each_left(switch.journal(), sides.as_mut_slice());
            put_ends(sides.as_slice(), turns, &mut ends);
            give_links(sides, ports);
            Ok(RouteEnd {
                journal: switch.into_journal(),
                ports: ends,
            })
        }
    }
}

fn discard<'a>(_turn: Turn<Switch<'a>>, _seats: Vec<TurnSeat<Switch<'a>>>) {}

// Runs the threads with their seats, and then closes the switch.
fn route_seated<'a, R: Threads + Wait + Sync>(
    rt: &R,
    alloc: Global,
    turn: Turn<Switch<'a>>,
    seats: Vec<TurnSeat<Switch<'a>>>,
    rules: &RouterRules<'a>,
    stock: &mut Stock<BoxedLink>,
    ends: Vec<PortEnd>,
    ports: &mut Vec<BoxedLink>,
    turns: u64,
) -> Result<RouteEnd, RouteFault>
    requires opening { turn.opening ≡ history_of rules.now [] }
    requires handles { turn.handles ≡ rules.now.ports }
    requires seats { seats.items ≡ replicate rules.now.ports (opened turn.id (history_of rules.now [])) }
    requires stocked { IsStocked rules.now stock.old }
    requires ports { rules.now.ports ≡ length ports.old.items }
    requires from { 1 ≤ rules.now.ports }
    requires to { rules.now.ports ≤ 8 }
    requires new { vec_len ends ≡ 0 }
    requires room { rules.now.ports ≤ vec_capacity ends }
    requires turns { turns ≤ 1_000_000_000 }
    ensures { HasEnded result false state rules.now turns ports.old.items ports.new.items }
{
    let signals = Signals::new(ports.as_slice());
    let mut seats = seats;
    let crew = Crew {
        turn: &turn,
        rules,
        signals: &signals,
        turns,
    };
    if let Err(_) = serve_ports(rt, alloc, &crew, stock, &mut seats, ports) {
        discard(turn, seats);
        return Err(no_memory(alloc));
    }
    finish(turn.close(seats), &mut stock.sides, ends, ports, turns)
}

// Makes the switch and the seats.
fn route_stocked<R: Threads + Wait + Sync>(
    rt: &R,
    alloc: Global,
    key: &Key,
    known: &Dialect,
    stock: &mut Stock<BoxedLink>,
    ends: Vec<PortEnd>,
    ports: &mut Vec<BoxedLink>,
    plan: RoutePlan,
) -> Result<RouteEnd, RouteFault>
    requires can { CanRoute (length ports.old.items) plan.turns }
    requires stocked { IsStocked (rules_of key.now known.now plan.plain (length ports.old.items)) stock.old }
    requires new { vec_len ends ≡ 0 }
    requires room { length ports.old.items ≤ vec_capacity ends }
    ensures { HasEnded result false state (rules_of key.now known.now plan.plain (length ports.old.items))
        plan.turns ports.old.items ports.new.items }
{
    let count = ports.len() as u8;
    let Ok(switch) = Switch::new(alloc, *key, known, count, plan.plain) else {
        return Err(no_memory(alloc));
    };
    let Ok((turn, seats)) = Turn::new(alloc, switch, count) else {
        return Err(no_memory(alloc));
    };
    let rules = RouterRules {
        key: *key,
        known,
        ports: count,
        plain: plan.plain,
    };
    route_seated(
        rt, alloc, turn, seats, &rules, stock, ends, ports, plan.turns,
    )
}

/// Routes between the ports with a thread for each. All memory but that of the switch is allocated before a link is
/// moved.
pub(crate) fn route_threads<R: Threads + Wait + Sync>(
    rt: &R,
    alloc: Global,
    key: &Key,
    known: &Dialect,
    ports: &mut Vec<BoxedLink>,
    plan: RoutePlan,
) -> Result<RouteEnd, RouteFault>
    requires { CanRoute (length ports.old.items) plan.turns }
    ensures { HasEnded result false state (rules_of key.now known.now plan.plain (length ports.old.items))
        plan.turns ports.old.items ports.new.items }
{
    let count = ports.len();
    let Ok(ends) = Vec::with_capacity(alloc, count) else {
        return Err(no_memory(alloc));
    };
    let Ok(mut stock) = new_stock(alloc, known, plan.plain, count) else {
        return Err(no_memory(alloc));
    };
    route_stocked(rt, alloc, key, known, &mut stock, ends, ports, plan)
}
