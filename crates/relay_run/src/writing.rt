// Bytes that links take.
ghost use Rattle.std.specs.Prelude.{◌≡◌, ◌<◌, length};
ghost use Rattle.mav_router.specs.Journal.{Rules};
ghost use Rattle.relay_run.specs.Rounds.{AreSeated, Goes};

use relay_core::{Note, Relay, Watcher};
use relay_hub::Hub;

// A link is written to so often in one round: others wait meanwhile.
const MOST_WRITES: u32 = 64;

// Writes the next bytes to an open link. Returns whether it took some.
fn write_next<H: Hub, W: Watcher>(
    hub: &mut H,
    relay: &mut Relay,
    index: usize,
    watcher: &mut W,
) -> bool
    requires seated { AreSeated (H.seats hub.old) relay.old }
    requires within { index < length relay.old.links.links }
    ensures goes { (rules : Rules) → Goes rules W.told watcher.old watcher.new (H.state hub.old) (H.state hub.new)
        relay.old relay.new }
    ensures seated { AreSeated (H.seats hub.new) relay.new }
    ensures count { length relay.new.links.links ≡ length relay.old.links.links }
{
    let count = hub.write(index, relay.next_bytes(index));
    if count == 0 {
        return false;
    }
    relay.wrote(index, count);
    let link = relay.link(index);
    watcher.note(Note::Took {
        number: link.number,
        port: link.port,
        count,
    });
    true
}

// Writes what waits for an open link, as long as it takes some.
fn write_link<H: Hub, W: Watcher>(hub: &mut H, relay: &mut Relay, index: usize, watcher: &mut W)
    requires seated { AreSeated (H.seats hub.old) relay.old }
    requires within { index < length relay.old.links.links }
    ensures goes { (rules : Rules) → Goes rules W.told watcher.old watcher.new (H.state hub.old) (H.state hub.new)
        relay.old relay.new }
    ensures seated { AreSeated (H.seats hub.new) relay.new }
    ensures count { length relay.new.links.links ≡ length relay.old.links.links }
{
    for _write in 0..MOST_WRITES {
        if !write_next(hub, relay, index, watcher) {
            return;
        }
    }
}

/// Writes what waits for each open link, as long as it takes some.
pub(crate) fn write_links<H: Hub, W: Watcher>(hub: &mut H, relay: &mut Relay, watcher: &mut W)
    requires seated { AreSeated (H.seats hub.old) relay.old }
    ensures goes { (rules : Rules) → Goes rules W.told watcher.old watcher.new (H.state hub.old) (H.state hub.new)
        relay.old relay.new }
    ensures seated { AreSeated (H.seats hub.new) relay.new }
{
    for index in 0..relay.len() {
        write_link(hub, relay, index, watcher);
    }
}
