// The command `route`.
ghost use Rattle.std.specs.Prelude.{◌≡◌, ◌≤◌, length, IsErrOf, None, true, if◌then◌else◌};
ghost use Rattle.std.specs.Result.{result_err};
ghost use Rattle.route_command.specs.Texts.{route_text};
ghost use Rattle.mav_router.specs.Journal.{rules_of};
ghost use Rattle.mav_router.specs.Routed.{CanRoute};
ghost use Rattle.route_command.specs.Routes.{ports_of, end_of_ports, end_of_fault, WroteAll, RoutesBeforeStatus};

use crate::entry_lines::{LINE_BYTES, write_entries};
use crate::port_lines::{has_turns, put_ends};
use crate::routers::Router;
use dialect::Dialect;
use mav_links::Link;
use mav_ports::Sink;
use mav_router::{Journal, PortEnd, RouteEnd, RouteFault, RoutePlan, SwitchFault};
use mav_sign::Key;
use run_status::{Bound, ENOUGH_BYTES, InputError, LiveEnd, RunEnd, write_held};
use std::alloc::Global;

// Writes the report of a run.
fn write_report<K: Sink>(
    alloc: Global,
    journal: &Journal,
    ends: &[PortEnd],
    out: &mut K,
) -> Result<(), RunEnd>
    requires { length ends.now ≤ 8 }
    ensures wrote { WroteAll None (result_err result) (route_text journal.now ends.now)
        (K.faults out.old) (K.faults out.new) (K.sent out.old) (K.sent out.new) }
{
    let mut lines = Vec::new(alloc);
    lines.reserve(ENOUGH_BYTES + LINE_BYTES)?;
    write_entries(journal, &mut lines, out)?;
    put_ends(ends, &mut lines)?;
    write_held(&mut lines, out)
}

// Writes the report, and ends the run by what became of its ports.
fn report<K: Sink>(alloc: Global, end: &RouteEnd, turns: u64, out: &mut K) -> Result<(), RunEnd>
    requires { length end.now.ports.items ≤ 8 }
    ensures wrote { WroteAll (end_of_ports turns end.now.ports.items) (result_err result)
        (route_text end.now.journal end.now.ports.items)
        (K.faults out.old) (K.faults out.new) (K.sent out.old) (K.sent out.new) }
{
    write_report(alloc, &end.journal, &end.ports, out)?;
    if has_turns(&end.ports) {
        return Err(RunEnd::Live(LiveEnd::PortTurns(turns)));
    }
    Ok(())
}

fn end_of_fault(fault: &RouteFault) -> RunEnd
    ensures { result ≡ end_of_fault fault.now.why }
{
    match fault.why {
        SwitchFault::Full { .. } => RunEnd::Stopped(InputError::AtLimit(Bound::Entries)),
        SwitchFault::NoMemory => RunEnd::NoMemory,
    }
}

/// Routes between the ports by the router, with a thread for each or with one, and writes what came in and what became
/// of each port. Nothing is written of a run that stops because its journal is full, or because memory is out. Writes
/// no status line.
pub fn route<T: Router, K: Sink>(
    router: &T,
    alloc: Global,
    key: &Key,
    known: &Dialect,
    ports: &mut Vec<Box<dyn Link>>,
    plan: RoutePlan,
    out: &mut K,
) -> Result<(), RunEnd>
    requires ready { T.ready }
    requires can { CanRoute (length ports.old.items) plan.turns }
    ensures routes { RoutesBeforeStatus (ports_of state
        (rules_of key.now known.now plan.plain (length ports.old.items))
        (if T.alone then true else plan.one) plan.turns ports.old.items ports.new.items)
        (result_err result) (K.faults out.old) (K.faults out.new) (K.sent out.old) (K.sent out.new) }
    ensures sound { ¬ IsErrOf result RunEnd.WriteFault → K.faults out.new ≡ K.faults out.old }
{
    let turns = plan.turns;
    match router.route_ports(alloc, key, known, ports, plan) {
        Ok(end) => report(alloc, &end, turns, out),
        Err(fault) => Err(end_of_fault(&fault)),
    }
}
