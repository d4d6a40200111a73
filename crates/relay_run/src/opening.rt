// Links that open.
ghost use Rattle.std.specs.Prelude.{◌≡◌, ◌≤◌, ◌<◌, ◌+◌, ◌^◌, ◌++◌, ◌∷◌, [], length, OnOk, OnErr, IfErr};
ghost use Rattle.relay_core.specs.Calls.{IsWhole, Opens};
ghost use Rattle.relay_core.specs.Said.{Notes};
ghost use Rattle.relay_core.specs.declared.notes.Note.TheVariants.{Opened};
ghost use Rattle.relay_run.specs.declared.stops.Stop.TheVariants.{NumbersSpent};

use crate::Stop;
use mav_router::RouterRules;
use relay_core::{Note, Relay, Watcher};

/// Opens the relay's link for one that has opened at the hub, the last one there, and tells the watcher.
pub(crate) fn open_link<W: Watcher>(
    relay: &mut Relay,
    rules: &RouterRules<'_>,
    port: u8,
    watcher: &mut W,
) -> Result<(), Stop>
    requires from { 1 ≤ port }
    requires to { port ≤ 8 }
    requires ports { rules.now.ports ≡ 8 }
    requires few { length relay.old.links.links < 32 }
    ensures opens { OnOk result (Opens rules.now port relay.old relay.new) }
    ensures links { OnOk result (relay.new.links.links
        ≡ relay.old.links.links ++ (record { number = relay.old.links.given + 1; port = port }) ∷ []) }
    ensures told { OnOk result (Notes W.told watcher.old watcher.new
        (Opened (relay.old.links.given + 1) port)) }
    ensures spent { IfErr result (λ stop. stop ≡ NumbersSpent → 2 ^ 64 ≤ relay.old.links.given + 1) }
    ensures whole { OnErr result (IsWhole relay.old) }
    ensures unchanged { OnErr result (relay.new ≡ relay.old) }
    ensures untold { OnErr result (watcher.new ≡ watcher.old) }
{
    if !relay.has_room() {
        return Err(Stop::NumbersSpent);
    }
    let number = relay.open(rules, port)?;
    watcher.note(Note::Opened { number, port });
    Ok(())
}
