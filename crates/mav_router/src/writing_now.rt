// What goes out at a port without waiting.
ghost use Rattle.std.specs.Prelude.{◌≡◌, ◌≤◌, ℕ, List, length};
ghost use Rattle.mav_frame.specs.Packet.{Packet};
ghost use Rattle.mav_links.specs.Links.{LinkState};
ghost use Rattle.mav_router.specs.Journal.{given_to};
ghost use Rattle.mav_router.specs.Outgoing.{GivenBut, KeepsInput, Writes};
ghost use Rattle.mav_router.specs.Runs.{Output};

use crate::batch::Batch;
use crate::lane::Lane;
use crate::writing::{flush, pass_on};
use crate::{Journal, Switch};
use mav_links::Link;

// How many bytes a port takes now without waiting. One that failed isn't asked, and takes nothing that is given for
// it.
fn room_of<L: Link>(lane: &Lane, link: &mut L) -> usize
    ensures kept { L.state link.new ≡ L.state link.old }
{
    if lane.failed { usize::MAX } else { link.room() }
}

// How many bytes more may be given for a port after so many, of which there was room for `left`: once there is no
// more room, what waits is written, and the port is asked again.
fn room_after<L: Link>(
    batch: &mut Batch,
    lane: &mut Lane,
    link: &mut L,
    left: usize,
    size: usize,
) -> usize
    ensures given { (frames : List Packet) (first : LinkState)
        → GivenBut frames first (L.state link.old) lane.old batch.old
        → GivenBut frames first (L.state link.new) lane.new batch.new }
    ensures keeps { KeepsInput (L.state link.old) (L.state link.new) lane.old lane.new }
{
    if left > size {
        return left - size;
    }
    flush(batch, lane, link);
    room_of(lane, link)
}

// Writes what the entries of a journal from an index on send to a port, unless it failed or fails, as long as that
// needn't wait, and moves the index past them.
fn write_entries_now<L: Link>(
    journal: &Journal,
    port: u8,
    from: &mut usize,
    batch: &mut Batch,
    lane: &mut Lane,
    link: &mut L,
)
    requires from { 1 ≤ port }
    requires to { port ≤ 8 }
    requires within { from.old ≤ length journal.now }
    ensures writes { Writes port journal.now from.old from.new (L.state link.old)
        (L.state link.new) lane.old lane.new }
    ensures keeps { KeepsInput (L.state link.old) (L.state link.new) lane.old lane.new }
{
    batch.clear();
    let mut left = room_of(lane, link);
    while *from < journal.len() && left > 0 {
        let run = journal.run(port, from);
        let size = run.bytes.len();
        pass_on(batch, lane, link, run);
        left = room_after(batch, lane, link, left, size);
    }
    flush(batch, lane, link);
}

/// Writes what is waiting for a port, unless it failed or fails, as long as that needn't wait. The port is asked for
/// room also where nothing is: what it keeps of earlier writes it passes on then.
pub(crate) fn write_port_now<L: Link>(
    switch: &mut Switch<'_>,
    lane: &mut Lane,
    link: &mut L,
    port: u8,
    batch: &mut Batch,
)
    requires from { 1 ≤ port }
    requires to { port ≤ switch.old.rules.ports }
    ensures same { (switch.new.rules ≡ switch.old.rules) × (switch.new.journal ≡ switch.old.journal) }
    ensures others { (other : ℕ) → 1 ≤ other → (other ≡ port → ⊥)
        → given_to switch.new other ≡ given_to switch.old other }
    ensures keeps { KeepsInput (L.state link.old) (L.state link.new) lane.old lane.new }
    ensures output { (first : LinkState) → Output (given_to switch.old port) first (L.state link.old) lane.old
        → Output (given_to switch.new port) first (L.state link.new) lane.new }
{
    let mut seen = switch.seen(port);
    write_entries_now(switch.journal(), port, &mut seen, batch, lane, link);
    switch.pass(port, seen);
}
