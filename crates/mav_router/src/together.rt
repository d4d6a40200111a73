// A run of a router on one thread or on many.
ghost use Rattle.std.specs.Prelude.{length};
ghost use Rattle.mav_router.specs.Journal.{rules_of};
ghost use Rattle.mav_router.specs.Routed.{CanRoute, HasEnded};

use crate::threads::route_threads;
use crate::{PortEnd, RouteEnd, RouteFault, RoutePlan, route_one};
use dialect::Dialect;
use mav_links::Link;
use mav_sign::Key;
use std::alloc::Global;
use std::sync::Wait;
use std::thread::Threads;

/// Routes between the ports, and returns what came in and what became of each port. Each port has a thread of its own,
/// unless the plan is for one thread; then it is [`route_one`]. A run that stops because memory is out, or because the
/// journal is full, gives back its journal so far.
pub fn route_all<R: Threads + Wait + Sync>(
    rt: &R,
    alloc: Global,
    key: &Key,
    known: &Dialect,
    ports: &mut Vec<Box<dyn Link>>,
    plan: RoutePlan,
) -> Result<RouteEnd, RouteFault>
    requires { CanRoute (length ports.old.items) plan.turns }
    ensures { HasEnded result plan.one state (rules_of key.now known.now plan.plain (length ports.old.items))
        plan.turns ports.old.items ports.new.items }
{
    if plan.one {
        route_one(alloc, key, known, ports, plan)
    } else {
        route_threads(rt, alloc, key, known, ports, plan)
    }
}
