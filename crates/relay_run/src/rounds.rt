// A round of a relay.
ghost use Rattle.std.specs.Prelude.{◌≡◌, ◌≤◌, length, IfErr, OnOk};
ghost use Rattle.relay_run.specs.Rounds.{AreSeated, Goes, GoesInPart};

use crate::Stop;
use crate::following::follow;
use crate::reading::read_links;
use crate::strangers::hear_strangers;
use crate::writing::write_links;
use mav_router::RouterRules;
use relay_core::{Relay, Watcher};
use relay_hub::Hub;
use std::time::Duration;

/// Waits until something happens at the hub, at most so long, follows it, reads each open link once, hears those who
/// have no link, and writes what waits as long as links take it. All bytes go through this buffer of at most 64 KiB.
pub fn round<H: Hub, W: Watcher>(
    hub: &mut H,
    relay: &mut Relay,
    rules: &RouterRules<'_>,
    most: Duration,
    buf: &mut [u8],
    watcher: &mut W,
) -> Result<(), Stop>
    requires seated { AreSeated (H.seats hub.old) relay.old }
    requires ports { rules.now.ports ≡ 8 }
    requires short { length buf.old ≤ 65536 }
    ensures goes { OnOk result (Goes rules.now W.told watcher.old watcher.new (H.state hub.old) (H.state hub.new)
        relay.old relay.new) }
    ensures stops { IfErr result (λ stop. GoesInPart stop rules.now W.told watcher.old watcher.new
        (H.state hub.old) (H.state hub.new) relay.old) }
    ensures seated { OnOk result (AreSeated (H.seats hub.new) relay.new) }
{
    hub.wait(most);
    follow(hub, relay, rules, watcher)?;
    read_links(hub, relay, rules, buf, watcher)?;
    hear_strangers(hub, relay, rules, buf, watcher)?;
    write_links(hub, relay, watcher);
    Ok(())
}
