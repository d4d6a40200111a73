// What happened at a hub.
ghost use Rattle.std.specs.Prelude.{◌≡◌, IfErr, OnOk};
ghost use Rattle.relay_run.specs.Rounds.{AreSeated, Goes, GoesInPart};

use crate::Stop;
use crate::closing::close_link;
use crate::opening::open_link;
use mav_router::RouterRules;
use relay_core::{Note, Relay, Watcher};
use relay_hub::{Hub, HubNews};

// So much of what happened is followed in one round.
const MOST_NEWS: u32 = 64;

/// Follows the next thing that happened at the hub. Returns whether something did.
fn follow_next<H: Hub, W: Watcher>(
    hub: &mut H,
    relay: &mut Relay,
    rules: &RouterRules<'_>,
    watcher: &mut W,
) -> Result<bool, Stop>
    requires seated { AreSeated (H.seats hub.old) relay.old }
    requires ports { rules.now.ports ≡ 8 }
    ensures goes { OnOk result (Goes rules.now W.told watcher.old watcher.new (H.state hub.old) (H.state hub.new)
        relay.old relay.new) }
    ensures stops { IfErr result (λ stop. GoesInPart stop rules.now W.told watcher.old watcher.new
        (H.state hub.old) (H.state hub.new) relay.old) }
    ensures seated { OnOk result (AreSeated (H.seats hub.new) relay.new) }
{
    let Some(news) = hub.next() else {
        return Ok(false);
    };
    match news {
        HubNews::Opened(port) => open_link(relay, rules, port, watcher)?,
        HubNews::Refused(port) => watcher.note(Note::Refused { port }),
        HubNews::Closed(index, why) => close_link(relay, index, why, watcher),
        HubNews::Waits(port) => watcher.note(Note::Waits { port }),
    }
    Ok(true)
}

/// Follows what happened at the hub.
pub(crate) fn follow<H: Hub, W: Watcher>(
    hub: &mut H,
    relay: &mut Relay,
    rules: &RouterRules<'_>,
    watcher: &mut W,
) -> Result<(), Stop>
    requires seated { AreSeated (H.seats hub.old) relay.old }
    requires ports { rules.now.ports ≡ 8 }
    ensures goes { OnOk result (Goes rules.now W.told watcher.old watcher.new (H.state hub.old) (H.state hub.new)
        relay.old relay.new) }
    ensures stops { IfErr result (λ stop. GoesInPart stop rules.now W.told watcher.old watcher.new
        (H.state hub.old) (H.state hub.new) relay.old) }
    ensures seated { OnOk result (AreSeated (H.seats hub.new) relay.new) }
{
    for _news in 0..MOST_NEWS {
        if !follow_next(hub, relay, rules, watcher)? {
            return Ok(());
        }
    }
    Ok(())
}
