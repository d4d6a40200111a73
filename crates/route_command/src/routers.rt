// How a router runs: on the caller's thread alone, or with threads.
ghost use Rattle.std.specs.Prelude.{length, Bool, true, if◌then◌else◌};
ghost use Rattle.mav_router.specs.Journal.{rules_of};
ghost use Rattle.mav_router.specs.Routed.{CanRoute, HasEnded};

use dialect::Dialect;
use mav_links::Link;
use mav_router::{RouteEnd, RouteFault, RoutePlan, route_all, route_one};
use mav_sign::Key;
use std::alloc::Global;
use std::sync::Wait;
use std::thread::Threads;

pub trait Router {
    // What it needs of its handle.
    ghost ready: { Type 0 };

    // Whether it starts no thread, whatever the plan says.
    ghost alone: { Bool };

    /// Routes between the ports, and returns what came in and what became of each port. A run that stops gives back
    /// its journal so far.
    fn route_ports(
        &self,
        alloc: Global,
        key: &Key,
        known: &Dialect,
        ports: &mut Vec<Box<dyn Link>>,
        plan: RoutePlan,
    ) -> Result<RouteEnd, RouteFault>
        requires ready { ready }
        requires can { CanRoute (length ports.old.items) plan.turns }
        ensures { HasEnded result (if alone then true else plan.one) state
            (rules_of key.now known.now plan.plain (length ports.old.items))
            plan.turns ports.old.items ports.new.items };
}

/// On the caller's thread, whatever the plan says.
#[derive(Drop)]
pub struct SingleThread;

/// With a thread for each port, unless the plan is for one thread.
#[derive(Drop)]
pub struct Threaded<'a, R: Threads + Wait + Sync> {
    pub rt: &'a R,
}

impl Router for SingleThread {
    ghost use Rattle.std.specs.Prelude.{⊤, true};

    ghost ready = { ⊤ };

    ghost alone = { true };

    fn route_ports(
        &self,
        alloc: Global,
        key: &Key,
        known: &Dialect,
        ports: &mut Vec<Box<dyn Link>>,
        plan: RoutePlan,
    ) -> Result<RouteEnd, RouteFault> {
        route_one(alloc, key, known, ports, plan)
    }
}

impl<'a, R: Threads + Wait + Sync> Router for Threaded<'a, R> {
    ghost use Rattle.std.specs.Thread.{IsSync};
    ghost use Rattle.std.specs.Prelude.{false};

    ghost ready = { IsSync R.row };

    ghost alone = { false };

    fn route_ports(
        &self,
        alloc: Global,
        key: &Key,
        known: &Dialect,
        ports: &mut Vec<Box<dyn Link>>,
        plan: RoutePlan,
    ) -> Result<RouteEnd, RouteFault> {
        route_all(self.rt, alloc, key, known, ports, plan)
    }
}
