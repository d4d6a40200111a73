// The stream of a link, frame by frame.
ghost use Rattle.std.specs.Prelude.{◌≡◌, ◌<◌, length, OnOk, OnErr, IfOk, true, false};
ghost use Rattle.mav_stream.specs.Held.{Held};
ghost use Rattle.relay_core.specs.Moves.{Moves, OthersKept, Stops, held_at};
ghost use Rattle.relay_core.specs.RelayRuns.{IsResting};

use crate::NoMemory;
use crate::hearing::try_frame;
use crate::queues::Queues;
use crate::scanners::Scanners;
use crate::watcher::Watcher;
use mav_router::RouterRules;
use mav_stream::NextSpan;
use relay_rules::Links;

// Hears what is at the start of the bytes that are held of the open link with that index; whether anything was.
fn hear_next<W: Watcher>(
    links: &mut Links,
    scanners: &mut Scanners,
    queues: &mut Queues,
    rules: &RouterRules<'_>,
    index: usize,
    watcher: &mut W,
) -> Result<bool, NoMemory>
    requires within { index < length links.old.links }
    requires scanners { length scanners.old ≡ length links.old.links }
    requires queues { length queues.old ≡ length links.old.links }
    ensures moves { OnOk result (Moves rules.now
        (record { links = links.old; scanners = scanners.old; queues = queues.old })
        (record { links = links.new; scanners = scanners.new; queues = queues.new })
        W.told watcher.old watcher.new) }
    ensures stops { OnErr result (Stops rules.now
        (record { links = links.old; scanners = scanners.old; queues = queues.old })
        W.told watcher.old watcher.new) }
    ensures links { links.new.links ≡ links.old.links }
    ensures given { links.new.given ≡ links.old.given }
    ensures others { OthersKept index scanners.old scanners.new }
    ensures count { length queues.new ≡ length queues.old }
    ensures fewer { IfOk result (λ more. more ≡ true
        → length (held_at scanners.new index).bytes < length (held_at scanners.old index).bytes) }
    ensures rests { IfOk result (λ more. more ≡ false → (held_at scanners.new index).ended ≡ false
        → IsResting (held_at scanners.new index)) }
{
    match scanners.next_span(index) {
        NextSpan::Need => Ok(false),
        NextSpan::Skipped(_, count) => {
            scanners.consume(index, count);
            Ok(true)
        }
        NextSpan::Frame(size) => {
            let frame = scanners.raw_frame(index, size);
            let ways = try_frame(links, rules, index, &frame, watcher)?;
            queues.pass_on(ways, frame.bytes())?;
            scanners.consume(index, size);
            Ok(true)
        }
    }
}

/// Hears all that is held of the open link with that index.
pub(crate) fn hear_all<W: Watcher>(
    links: &mut Links,
    scanners: &mut Scanners,
    queues: &mut Queues,
    rules: &RouterRules<'_>,
    index: usize,
    watcher: &mut W,
) -> Result<(), NoMemory>
    requires within { index < length links.old.links }
    requires scanners { length scanners.old ≡ length links.old.links }
    requires queues { length queues.old ≡ length links.old.links }
    ensures moves { OnOk result (Moves rules.now
        (record { links = links.old; scanners = scanners.old; queues = queues.old })
        (record { links = links.new; scanners = scanners.new; queues = queues.new })
        W.told watcher.old watcher.new) }
    ensures stops { OnErr result (Stops rules.now
        (record { links = links.old; scanners = scanners.old; queues = queues.old })
        W.told watcher.old watcher.new) }
    ensures links { links.new.links ≡ links.old.links }
    ensures given { links.new.given ≡ links.old.given }
    ensures others { OthersKept index scanners.old scanners.new }
    ensures count { length queues.new ≡ length queues.old }
    ensures rests { OnOk result ((held_at scanners.new index).ended ≡ false → IsResting (held_at scanners.new index)) }
{
    while hear_next(links, scanners, queues, rules, index, watcher)? {}
    Ok(())
}
