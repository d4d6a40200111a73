// Routers with a thread for each port.
ghost use Rattle.std.specs.Prelude.{◌≡◌};

use crate::failing::FRAMES;
use dialect::Dialect;
use link_table::Ways;
use mav_links::{Link, MemLink};
use mav_router::{Entry, How, Journal, NoMemory, RouteEnd, RoutePlan, Switch, route_all};
use mav_sign::Key;
use std::alloc::Global;
use std::sync::Wait;
use std::test::Fail;
use std::thread::Threads;

// How many frames each port gives, of 21 bytes.
const FRAMES_EACH: u64 = 500;

// Ports of which one may fail at its second read, after 100 bytes.
#[derive(Clone, Copy)]
struct Ports {
    count: u64,
    failing: Option<u64>,
}

fn all_open() -> Ways {
    let mut ways = Ways::none();
    for port in 1..9 {
        ways = ways.with(port);
    }
    ways
}

fn plan() -> RoutePlan
    ensures { result.turns ≡ 1000 }
{
    RoutePlan {
        one: false,
        turns: 1000,
        plain: all_open(),
    }
}

fn link_of(alloc: Global, port: u64, fails: bool) -> Result<MemLink, NoMemory> {
    let mut bytes = Vec::new(alloc);
    for _ in 0..FRAMES_EACH {
        bytes.extend_from_slice(&FRAMES[(port % 3) as usize])?;
    }
    let mut reads = Vec::new(alloc);
    if fails {
        reads.push(1)?;
    }
    let none = Vec::new(alloc);
    MemLink::new(alloc, bytes, 100, reads, none, 80_000, Vec::new(alloc))
}

// Whether the switch admits the frame as the entry says, to the same ports.
fn admits_so(switch: &mut Switch<'_>, entry: &Entry) -> bool
    requires { switch.old.rules.ports ≡ 8 }
    ensures { switch.new.rules.ports ≡ 8 }
{
    if entry.port < 1 || entry.port > 8 {
        return false;
    }
    let Ok(admit) = switch.admit(entry.port, &entry.frame) else {
        return false;
    };
    let kept = switch.journal();
    if kept.len() == 0 {
        return false;
    }
    let last = kept.outcome(kept.len() - 1);
    admit == entry.admit && goes_alike(last.ways, entry.ways)
}

fn goes_alike(ways: Ways, others: Ways) -> bool {
    for port in 1..9 {
        if ways.has(port) != others.has(port) {
            return false;
        }
    }
    true
}

// Whether a switch on one thread keeps the same entries.
fn replays(switch: &mut Switch<'_>, journal: &Journal) -> bool
    requires { switch.old.rules.ports ≡ 8 }
{
    for at in 0..journal.len() {
        if !admits_so(switch, &journal.entry(at)) {
            return false;
        }
    }
    true
}

// What a run came to: its entries, how many ports ended and failed, and the bytes that were written to all.
#[derive(Clone, Copy, PartialEq, Eq)]
pub(crate) struct Outcome {
    entries: usize,
    pub(crate) ended: u64,
    failed: u64,
    written: u64,
}

fn outcome_of(end: &RouteEnd) -> Outcome {
    let mut outcome = Outcome {
        entries: end.journal.len(),
        ended: 0,
        failed: 0,
        written: 0,
    };
    for port in &end.ports {
        match port.how {
            How::Ended => outcome.ended = outcome.ended.saturating_add(1),
            How::Failed => outcome.failed = outcome.failed.saturating_add(1),
            How::Turns(_) => {}
        }
        outcome.written = outcome.written.saturating_add(port.written);
    }
    outcome
}

// The outcome of a run, if its journal is that of a switch on one thread where there are eight ports.
fn judged(alloc: Global, known: &Dialect, end: &RouteEnd) -> Option<Outcome> {
    let Ok(mut switch) = Switch::new(alloc, Key::new([0; 32]), known, 8, all_open()) else {
        return None;
    };
    if end.ports.len() == 8 && !replays(&mut switch, &end.journal) {
        return None;
    }
    Some(outcome_of(end))
}

pub(crate) fn route_over<R: Threads + Wait + Sync>(
    rt: &R,
    alloc: Global,
    known: &Dialect,
    links: &mut Vec<Box<dyn Link>>,
) -> Option<Outcome> {
    if links.len() < 1 || links.len() > 8 {
        return None;
    }
    match route_all(rt, alloc, &Key::new([0; 32]), known, links, plan()) {
        Ok(end) => judged(alloc, known, &end),
        Err(_) => None,
    }
}

fn run_known<R: Threads + Wait + Sync>(
    rt: &R,
    alloc: Global,
    known: &Dialect,
    ports: Ports,
) -> Result<Option<Outcome>, NoMemory> {
    let mut links: Vec<Box<dyn Link>> = Vec::new(alloc);
    for port in 0..ports.count {
        let fails = ports.failing == Some(port);
        links.push(Box::new(alloc, link_of(alloc, port, fails)?)?)?;
    }
    Ok(route_over(rt, alloc, known, &mut links))
}

fn run<R: Threads + Wait + Sync>(
    rt: &R,
    alloc: Global,
    ports: Ports,
) -> Result<Option<Outcome>, NoMemory> {
    let known = Dialect::profile(alloc)?;
    run_known(rt, alloc, &known, ports)
}

// Each frame is for everyone, and so it goes out at each other port.
#[test]
fn four_and_eight_threads_route_all_frames(rt: HostRuntime) -> Result<(), Fail> {
    for (count, entries, written) in [(4, 2000, 4 * 3 * 500 * 21), (8, 4000, 8 * 7 * 500 * 21)] {
        let ports = Ports {
            count,
            failing: None,
        };
        let wanted = Outcome {
            entries,
            ended: count,
            failed: 0,
            written,
        };
        assert!(rt; run(&rt, rt.alloc(), ports)? == Some(wanted));
    }
    Ok(())
}

// The port that fails gave 4 frames, and nothing is written to it from then on; the others go on to their ends.
#[test]
fn one_thread_may_fail_alone(rt: HostRuntime) -> Result<(), Fail> {
    let ports = Ports {
        count: 4,
        failing: Some(1),
    };
    let outcome = run(&rt, rt.alloc(), ports)?;
    let is_as_wanted =
        matches!(outcome, Some(o) if o.entries == 1504 && o.ended == 3 && o.failed == 1);
    assert!(rt; is_as_wanted);
    Ok(())
}
