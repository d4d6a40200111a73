// What goes out at a port.
ghost use Rattle.std.specs.Prelude.{◌≡◌, ◌≤◌, ◌+◌, ◌++◌, ℕ, List, [], length};
ghost use Rattle.mav_frame.specs.Packet.{Packet};
ghost use Rattle.mav_links.specs.Links.{LinkState};
ghost use Rattle.mav_router.specs.Journal.{given_to, frames_to};
ghost use Rattle.mav_router.specs.Outgoing.{GivenBut, Joins, KeepsInput, LooksOn, Writes};
ghost use Rattle.mav_router.specs.Pages.{IsWindow, StandsIn, end_of_page, end_of_window};
ghost use Rattle.mav_router.specs.Runs.{Output};
ghost use Rattle.mav_router.specs.declared.entries.Entry.{Entry};

use crate::batch::{Batch, LONG_RUN};
use crate::lane::Lane;
use crate::page::Run;
use crate::sealed::SealedPage;
use crate::shared::SharedPages;
use crate::{Journal, Switch};
use mav_links::{Link, write_prefix};

// Writes frames that stand together to a port, unless it failed.
fn write_run<L: Link>(lane: &mut Lane, link: &mut L, run: &[u8])
    ensures output { (frames more : List Packet) (first : LinkState) → Joins run.now more
        → Output frames first (L.state link.old) lane.old
        → Output (frames ++ more) first (L.state link.new) lane.new }
    ensures keeps { KeepsInput (L.state link.old) (L.state link.new) lane.old lane.new }
{
    if lane.failed {
        return;
    }
    let size = run.len();
    let count = write_prefix(link, run);
    lane.written = lane.written.saturating_add(count as u64);
    if count < size {
        lane.failed = true;
    }
}

/// Writes what waits.
pub(crate) fn flush<L: Link>(batch: &mut Batch, lane: &mut Lane, link: &mut L)
    ensures empty { batch.new ≡ [] }
    ensures output { (frames : List Packet) (first : LinkState)
        → GivenBut frames first (L.state link.old) lane.old batch.old
        → Output frames first (L.state link.new) lane.new }
    ensures keeps { KeepsInput (L.state link.old) (L.state link.new) lane.old lane.new }
{
    write_run(lane, link, batch.bytes());
    batch.clear();
}

// Writes what waits if one more run might not fit.
fn make_room<L: Link>(batch: &mut Batch, lane: &mut Lane, link: &mut L)
    ensures room { length batch.new + 8192 ≤ 65536 }
    ensures given { (frames : List Packet) (first : LinkState)
        → GivenBut frames first (L.state link.old) lane.old batch.old
        → GivenBut frames first (L.state link.new) lane.new batch.new }
    ensures keeps { KeepsInput (L.state link.old) (L.state link.new) lane.old lane.new }
{
    if !batch.has_room() {
        flush(batch, lane, link);
    }
}

/// Writes frames that stand together after what waits. If they weren't copied yet, they wait too.
pub(crate) fn pass_on<L: Link>(batch: &mut Batch, lane: &mut Lane, link: &mut L, run: Run<'_>)
    ensures given { (frames more : List Packet) (first : LinkState) → Joins run.entry.bytes.now more
        → GivenBut frames first (L.state link.old) lane.old batch.old
        → GivenBut (frames ++ more) first (L.state link.new) lane.new batch.new }
    ensures keeps { KeepsInput (L.state link.old) (L.state link.new) lane.old lane.new }
{
    let bytes = run.bytes;
    if run.is_copied || bytes.len() >= LONG_RUN {
        flush(batch, lane, link);
        write_run(lane, link, bytes);
        return;
    }
    make_room(batch, lane, link);
    batch.push(bytes);
}

// Passes on what the entries of a page from an index of the journal on send to a port, and moves the index past them.
fn pass_page<L: Link>(
    page: &SealedPage,
    port: u8,
    from: &mut usize,
    batch: &mut Batch,
    lane: &mut Lane,
    link: &mut L,
)
    requires from { 1 ≤ port }
    requires to { port ≤ 8 }
    ensures looks { (journal : List Entry) → StandsIn journal page.now → page.now.start ≤ from.old
        → from.old ≤ length journal
        → LooksOn port journal from.old from.new (L.state link.old)
        (L.state link.new) lane.old lane.new batch.old batch.new }
    ensures all { page.now.start ≤ from.old → end_of_page page.now ≤ from.new }
    ensures keeps { KeepsInput (L.state link.old) (L.state link.new) lane.old lane.new }
{
    if *from < page.start() {
        return;
    }
    while *from < page.end() {
        let run = page.run(port, from);
        pass_on(batch, lane, link, run);
    }
}

/// Writes what the entries of some pages from an index of the journal on send to a port, unless it failed or fails,
/// and moves the index past them.
pub(crate) fn write_pages<L: Link>(
    shared: &SharedPages,
    port: u8,
    from: &mut usize,
    batch: &mut Batch,
    lane: &mut Lane,
    link: &mut L,
)
    requires from { 1 ≤ port }
    requires to { port ≤ 8 }
    ensures writes { (journal : List Entry) → from.old ≤ length journal → IsWindow journal from.old shared.now
        → Writes port journal from.old from.new (L.state link.old) (L.state link.new) lane.old lane.new }
    ensures all { (journal : List Entry) → (window : IsWindow journal from.old shared.now)
        → end_of_window window ≤ from.new }
    ensures keeps { KeepsInput (L.state link.old) (L.state link.new) lane.old lane.new }
{
    batch.clear();
    let pages = shared.pages();
    for number in 0..pages.len() {
        pass_page(&pages[number], port, from, batch, lane, link);
    }
    flush(batch, lane, link);
}

/// Writes what the entries of a journal from an index on send to a port, unless it failed or fails, and moves the
/// index to its end.
pub(crate) fn write_entries<L: Link>(
    journal: &Journal,
    port: u8,
    from: &mut usize,
    batch: &mut Batch,
    lane: &mut Lane,
    link: &mut L,
)
    requires from { 1 ≤ port }
    requires to { port ≤ 8 }
    requires within { from.old ≤ length journal.now }
    ensures writes { Writes port journal.now from.old from.new (L.state link.old)
        (L.state link.new) lane.old lane.new }
    ensures all { from.new ≡ length journal.now }
    ensures keeps { KeepsInput (L.state link.old) (L.state link.new) lane.old lane.new }
{
    batch.clear();
    while *from < journal.len() {
        let run = journal.run(port, from);
        pass_on(batch, lane, link, run);
    }
    flush(batch, lane, link);
}

/// Writes all that is waiting for a port, unless it failed or fails.
pub(crate) fn write_port<L: Link>(
    switch: &mut Switch<'_>,
    lane: &mut Lane,
    link: &mut L,
    port: u8,
    batch: &mut Batch,
)
    requires from { 1 ≤ port }
    requires to { port ≤ switch.old.rules.ports }
    ensures same { (switch.new.rules ≡ switch.old.rules) × (switch.new.journal ≡ switch.old.journal) }
    ensures others { (other : ℕ) → 1 ≤ other → (other ≡ port → ⊥)
        → given_to switch.new other ≡ given_to switch.old other }
    ensures keeps { KeepsInput (L.state link.old) (L.state link.new) lane.old lane.new }
    ensures output { (first : LinkState) → Output (given_to switch.old port) first (L.state link.old) lane.old
        → Output (given_to switch.new port) first (L.state link.new) lane.new }
    ensures drained { given_to switch.new port ≡ frames_to port switch.new.journal }
{
    let mut seen = switch.seen(port);
    write_entries(switch.journal(), port, &mut seen, batch, lane, link);
    switch.pass(port, seen);
}
