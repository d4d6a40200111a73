// Bytes that links give.
ghost use Rattle.std.specs.Prelude.{◌≡◌, ◌<◌, ◌≤◌, length, IfErr, OnOk};
ghost use Rattle.relay_run.specs.Rounds.{AreSeated, Goes, GoesInPart};

use crate::Stop;
use mav_router::RouterRules;
use relay_core::{Note, Relay, Watcher};
use relay_hub::Hub;

// Reads what an open link gives now.
fn read_link<H: Hub, W: Watcher>(
    hub: &mut H,
    relay: &mut Relay,
    rules: &RouterRules<'_>,
    index: usize,
    buf: &mut [u8],
    watcher: &mut W,
) -> Result<(), Stop>
    requires seated { AreSeated (H.seats hub.old) relay.old }
    requires within { index < length relay.old.links.links }
    requires short { length buf.old ≤ 65536 }
    ensures goes { OnOk result (Goes rules.now W.told watcher.old watcher.new (H.state hub.old) (H.state hub.new)
        relay.old relay.new) }
    ensures stops { IfErr result (λ stop. GoesInPart stop rules.now W.told watcher.old watcher.new
        (H.state hub.old) (H.state hub.new) relay.old) }
    ensures seated { OnOk result (AreSeated (H.seats hub.new) relay.new) }
    ensures count { OnOk result (length relay.new.links.links ≡ length relay.old.links.links) }
{
    let count = hub.read(index, buf);
    if count == 0 {
        return Ok(());
    }
    let link = relay.link(index);
    watcher.note(Note::Gave {
        number: link.number,
        port: link.port,
        count,
    });
    relay.hear(rules, index, &buf[..count], watcher)?;
    Ok(())
}

/// Reads what each open link gives now.
pub(crate) fn read_links<H: Hub, W: Watcher>(
    hub: &mut H,
    relay: &mut Relay,
    rules: &RouterRules<'_>,
    buf: &mut [u8],
    watcher: &mut W,
) -> Result<(), Stop>
    requires seated { AreSeated (H.seats hub.old) relay.old }
    requires short { length buf.old ≤ 65536 }
    ensures goes { OnOk result (Goes rules.now W.told watcher.old watcher.new (H.state hub.old) (H.state hub.new)
        relay.old relay.new) }
    ensures stops { IfErr result (λ stop. GoesInPart stop rules.now W.told watcher.old watcher.new
        (H.state hub.old) (H.state hub.new) relay.old) }
    ensures seated { OnOk result (AreSeated (H.seats hub.new) relay.new) }
{
    for index in 0..relay.len() {
        read_link(hub, relay, rules, index, buf, watcher)?;
    }
    Ok(())
}
