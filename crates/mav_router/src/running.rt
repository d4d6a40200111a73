// The thread of a port.
ghost use Rattle.std.specs.Prelude.{◌≡◌, ◌<◌, ◌+◌, ◌^◌, ℕ, false, OnOk, OnErr, IfErr};
ghost use Rattle.mav_links.specs.Links.{LinkState};
ghost use Rattle.mav_router.specs.Runs.{HadTurns};
ghost use Rattle.mav_router.specs.Faults.{IsSwitchFault};
ghost use Rattle.mav_router.specs.History.{entries_in};
ghost use Rattle.mav_router.specs.Parts.{IsReady, KeepsOn, PartSoFar, PartStopped};
ghost use Rattle.mav_router.specs.Crews.{HasRun};

use crate::SwitchFault;
use crate::crew::Crew;
use crate::lane::PIECE;
use crate::lanes::read_lane;
use crate::parts::{Halt, Part};
use crate::routing::is_live;
use crate::turns::{admit_found, share_waiting};
use crate::writing::write_pages;
use mav_links::Link;
use std::sync::Wait;

// While reads give whole pieces, what waits for the port is written after each fourth one.
const MOST_PUT_OFF: u32 = 3;

// Reads a port that is still read once, and has the switch admit the frames that are found.
fn read_part<'a, R: Wait, L: Link>(
    rt: &R,
    crew: &Crew<'a, '_>,
    part: &mut Part<'a, L>,
) -> Result<(), SwitchFault>
    requires ready { IsReady crew.now.turn.now crew.now.rules.now part.old }
    requires live { part.old.side.lane.ended ≡ false }
    requires fine { part.old.side.lane.failed ≡ false }
    ensures ready { IsReady crew.now.turn.now crew.now.rules.now part.new }
    ensures port { part.new.port ≡ part.old.port }
    ensures so_far { OnOk result ((first : LinkState) → PartSoFar L.state crew.now.rules.now first part.old
        → PartSoFar L.state crew.now.rules.now first part.new) }
    ensures stopped { OnErr result
        ((first : LinkState) → PartSoFar L.state crew.now.rules.now first part.old
        → PartStopped L.state crew.now.rules.now first part.new) }
    ensures fault { IfErr result (λ fault. IsSwitchFault fault (entries_in part.new.seat.seen)) }
    ensures turned { (turns : ℕ) → turns + 1 < 2 ^ 64 → HadTurns part.old.side.lane turns
        → HadTurns part.new.side.lane (turns + 1) }
{
    let side = &mut part.side;
    let Some(count) = read_lane(&mut side.lane, &mut side.link, &mut side.room.buffer) else {
        return Ok(());
    };
    if let Err(_) = side.room.found.find(
        crew.rules,
        &mut side.lane.scanner,
        &mut side.lane.skipped,
        &mut side.room.buffer,
        count,
    ) {
        return Err(SwitchFault::NoMemory);
    }
    admit_found(rt, crew, &mut part.seat, part.port, &mut side.room.found)
}

// Writes what waits for a port, of as many pages as are shared in one turn, and returns whether these were all.
fn write_some<'a, R: Wait, L: Link>(rt: &R, crew: &Crew<'a, '_>, part: &mut Part<'a, L>) -> bool
    requires ready { IsReady crew.now.turn.now crew.now.rules.now part.old }
    ensures { KeepsOn L.state crew.now.turn.now crew.now.rules.now part.old part.new }
{
    let side = &mut part.side;
    let all = share_waiting(
        rt,
        crew,
        &mut part.seat,
        part.port,
        side.taken,
        &mut side.room.shared,
    );
    write_pages(
        &side.room.shared,
        part.port,
        &mut side.taken,
        &mut side.room.batch,
        &mut side.lane,
        &mut side.link,
    );
    all
}

// Writes until nothing waits for the port, unless it failed or fails.
fn write_part<'a, R: Wait, L: Link>(rt: &R, crew: &Crew<'a, '_>, part: &mut Part<'a, L>)
    requires ready { IsReady crew.now.turn.now crew.now.rules.now part.old }
    ensures { KeepsOn L.state crew.now.turn.now crew.now.rules.now part.old part.new }
{
    for _ in rt.forever() {
        if part.side.lane.failed {
            return;
        }
        if write_some(rt, crew, part) {
            return;
        }
    }
    unreachable!()
}

// Writes what waits for the port if something came in at any port since the last look.
fn write_news<'a, R: Wait, L: Link>(
    rt: &R,
    crew: &Crew<'a, '_>,
    part: &mut Part<'a, L>,
    heard: &mut u64,
)
    requires ready { IsReady crew.now.turn.now crew.now.rules.now part.old }
    ensures { KeepsOn L.state crew.now.turn.now crew.now.rules.now part.old part.new }
{
    let news = crew.signals.news();
    if news == *heard {
        return;
    }
    *heard = news;
    write_part(rt, crew, part);
}

// Whether a read gave as many bytes as it asked for, by the counts of bytes before and after it: then more are likely
// there.
fn is_whole_piece(before: u64, after: u64) -> bool {
    after - before.min(after) >= PIECE as u64
}

// Ends the rest of the other ports after a read that gave bytes or the end, and writes what waits for the port,
// unless the read gave a whole piece and not too many writes in a row were put off. `before` is the count of bytes
// before the read. Returns how many writes in a row are put off now.
fn write_or_put_off<'a, R: Wait, L: Link>(
    rt: &R,
    crew: &Crew<'a, '_>,
    part: &mut Part<'a, L>,
    before: u64,
    put_off: u32,
    heard: &mut u64,
) -> u32
    requires ready { IsReady crew.now.turn.now crew.now.rules.now part.old }
    ensures { KeepsOn L.state crew.now.turn.now crew.now.rules.now part.old part.new }
{
    if part.side.lane.read > before || part.side.lane.ended {
        crew.signals.ring_others(part.port);
    }
    if put_off < MOST_PUT_OFF && is_whole_piece(before, part.side.lane.read) {
        return put_off + 1;
    }
    write_news(rt, crew, part, heard);
    0
}

// Whether a read of the port returns without waiting. If it doesn't, the others end the port's next rest once they
// have something for it.
fn is_ready<'a, L: Link>(crew: &Crew<'a, '_>, part: &mut Part<'a, L>) -> bool
    requires ready { IsReady crew.now.turn.now crew.now.rules.now part.old }
    ensures { KeepsOn L.state crew.now.turn.now crew.now.rules.now part.old part.new }
{
    let _ = crew;
    part.side.link.is_ready()
}

// Waits until a read of the port returns without waiting, or something waits for it.
fn rest<'a, L: Link>(crew: &Crew<'a, '_>, part: &mut Part<'a, L>)
    requires ready { IsReady crew.now.turn.now crew.now.rules.now part.old }
    ensures { KeepsOn L.state crew.now.turn.now crew.now.rules.now part.old part.new }
{
    let _ = crew;
    part.side.link.rest();
}

// Writes what waits for the port until a read of it returns without waiting.
fn write_until_ready<'a, R: Wait, L: Link>(
    rt: &R,
    crew: &Crew<'a, '_>,
    part: &mut Part<'a, L>,
    heard: &mut u64,
)
    requires ready { IsReady crew.now.turn.now crew.now.rules.now part.old }
    ensures { KeepsOn L.state crew.now.turn.now crew.now.rules.now part.old part.new }
{
    for _ in rt.forever() {
        if !is_live(&part.side.lane) || crew.signals.is_stopped() {
            return;
        }
        if is_ready(crew, part) {
            return;
        }
        write_news(rt, crew, part, heard);
        rest(crew, part);
    }
    unreachable!()
}

// Reads a port at most so many times, and writes what waits for it.
fn read_turns<'a, R: Wait, L: Link>(rt: &R, crew: &Crew<'a, '_>, part: &mut Part<'a, L>) -> Halt
    requires ready { IsReady crew.now.turn.now crew.now.rules.now part.old }
    requires turned { HadTurns part.old.side.lane 0 }
    ensures { HasRun result L.state crew.now.turn.now crew.now.rules.now crew.now.turns part.old part.new }
{
    let mut put_off = 0;
    let mut heard = 0;
    for turned in 0..crew.turns {
        let _ = turned;
        write_until_ready(rt, crew, part, &mut heard);
        if !is_live(&part.side.lane) {
            return Halt::Done;
        }
        if crew.signals.is_stopped() {
            return Halt::Stopped;
        }
        let before = part.side.lane.read;
        if let Err(fault) = read_part(rt, crew, part) {
            crew.signals.stop();
            return Halt::Fault(fault);
        }
        put_off = write_or_put_off(rt, crew, part, before, put_off, &mut heard);
    }
    Halt::Done
}

// Goes on writing what the others send to the port, until no thread reads any more or one of them had a fault.
fn write_on<'a, R: Wait, L: Link>(rt: &R, crew: &Crew<'a, '_>, part: &mut Part<'a, L>)
    requires ready { IsReady crew.now.turn.now crew.now.rules.now part.old }
    ensures { KeepsOn L.state crew.now.turn.now crew.now.rules.now part.old part.new }
{
    let mut looks = 0;
    let mut heard = 0;
    for _ in rt.forever() {
        let is_last = crew.signals.is_over(looks);
        if crew.signals.is_stopped() || part.side.lane.failed {
            return;
        }
        write_news(rt, crew, part, &mut heard);
        if is_last {
            return;
        }
        crew.signals.pause(rt);
        looks = looks.saturating_add(1);
    }
    unreachable!()
}

// Reads and writes, and then only writes.
fn serve<'a, R: Wait, L: Link>(rt: &R, crew: &Crew<'a, '_>, part: &mut Part<'a, L>) -> Halt
    requires ready { IsReady crew.now.turn.now crew.now.rules.now part.old }
    requires turned { HadTurns part.old.side.lane 0 }
    ensures { HasRun result L.state crew.now.turn.now crew.now.rules.now crew.now.turns part.old part.new }
{
    crew.signals.begin_reading();
    let halt = read_turns(rt, crew, part);
    crew.signals.end_reading();
    let Halt::Done = halt else {
        return halt;
    };
    write_on(rt, crew, part);
    Halt::Done
}

/// Runs the thread of a port, and keeps how it ended.
pub(crate) fn run_part<'a, R: Wait, L: Link>(rt: &R, crew: &Crew<'a, '_>, part: &mut Part<'a, L>)
    requires ready { IsReady crew.now.turn.now crew.now.rules.now part.old }
    requires turned { HadTurns part.old.side.lane 0 }
    ensures { HasRun part.new.side.halt L.state crew.now.turn.now crew.now.rules.now crew.now.turns part.old part.new }
{
    part.side.halt = serve(rt, crew, part);
}
