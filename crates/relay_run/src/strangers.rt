// Datagrams of those who have no link.
ghost use Rattle.std.specs.Prelude.{◌≡◌, ◌≤◌, ◌<◌, ◌+◌, ◌++◌, ◌∷◌, [], length, IfErr, OnOk};
ghost use Rattle.relay_run.specs.Rounds.{AreSeated, Goes, GoesInPart};
ghost use Rattle.relay_run.specs.Taking.{TakesIn, TakesInPart};

use crate::Stop;
use crate::opening::open_link;
use mav_router::RouterRules;
use relay_core::{Note, Relay, Watcher};
use relay_hub::{Hub, Stranger};

// So many datagrams are heard in one round.
const MOST_DATAGRAMS: u32 = 64;

// The sender of a datagram has become a link, the last one, which gave these bytes.
fn take_in<W: Watcher>(
    relay: &mut Relay,
    rules: &RouterRules<'_>,
    port: u8,
    bytes: &[u8],
    watcher: &mut W,
) -> Result<(), Stop>
    requires from { 1 ≤ port }
    requires to { port ≤ 8 }
    requires ports { rules.now.ports ≡ 8 }
    requires few { length relay.old.links.links < 32 }
    requires short { length bytes.now ≤ 65536 }
    ensures takes { OnOk result (TakesIn rules.now port bytes.now W.told watcher.old watcher.new relay.old relay.new) }
    ensures stops { IfErr result (λ stop. TakesInPart stop rules.now port bytes.now W.told watcher.old watcher.new
        relay.old) }
    ensures links { OnOk result (relay.new.links.links
        ≡ relay.old.links.links ++ (record { number = relay.old.links.given + 1; port = port }) ∷ []) }
{
    let index = relay.len();
    open_link(relay, rules, port, watcher)?;
    let number = relay.link(index).number;
    watcher.note(Note::Gave {
        number,
        port,
        count: bytes.len(),
    });
    relay.hear(rules, index, bytes, watcher)?;
    Ok(())
}

// Hears the next datagram of somebody who has no link. Returns whether there was one.
fn hear_stranger<H: Hub, W: Watcher>(
    hub: &mut H,
    relay: &mut Relay,
    rules: &RouterRules<'_>,
    buf: &mut [u8],
    watcher: &mut W,
) -> Result<bool, Stop>
    requires seated { AreSeated (H.seats hub.old) relay.old }
    requires ports { rules.now.ports ≡ 8 }
    requires short { length buf.old ≤ 65536 }
    ensures goes { OnOk result (Goes rules.now W.told watcher.old watcher.new (H.state hub.old) (H.state hub.new)
        relay.old relay.new) }
    ensures stops { IfErr result (λ stop. GoesInPart stop rules.now W.told watcher.old watcher.new
        (H.state hub.old) (H.state hub.new) relay.old) }
    ensures seated { OnOk result (AreSeated (H.seats hub.new) relay.new) }
{
    let Some(stranger) = hub.stranger(buf) else {
        return Ok(false);
    };
    let Stranger { port, count } = stranger;
    let bytes = &buf[..count];
    watcher.note(Note::Asked { port, count });
    let Some(from) = relay.judge_stranger(rules, port, bytes, watcher)? else {
        return Ok(true);
    };
    if hub.adopt(from) {
        take_in(relay, rules, port, &bytes[from..], watcher)?;
    }
    Ok(true)
}

/// Hears the datagrams of those who have no link.
pub(crate) fn hear_strangers<H: Hub, W: Watcher>(
    hub: &mut H,
    relay: &mut Relay,
    rules: &RouterRules<'_>,
    buf: &mut [u8],
    watcher: &mut W,
) -> Result<(), Stop>
    requires seated { AreSeated (H.seats hub.old) relay.old }
    requires ports { rules.now.ports ≡ 8 }
    requires short { length buf.old ≤ 65536 }
    ensures goes { OnOk result (Goes rules.now W.told watcher.old watcher.new (H.state hub.old) (H.state hub.new)
        relay.old relay.new) }
    ensures stops { IfErr result (λ stop. GoesInPart stop rules.now W.told watcher.old watcher.new
        (H.state hub.old) (H.state hub.new) relay.old) }
    ensures seated { OnOk result (AreSeated (H.seats hub.new) relay.new) }
{
    for _datagram in 0..MOST_DATAGRAMS {
        if !hear_stranger(hub, relay, rules, buf, watcher)? {
            return Ok(());
        }
    }
    Ok(())
}
