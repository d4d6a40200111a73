// What somebody sends who has no link yet.
ghost use Rattle.std.specs.Prelude.{◌≡◌, ◌-◌, ◌<◌, ◌≤◌, length, OnOk, OnErr, IfOk, IfSome, List, true, false};
ghost use Rattle.mav_stream.specs.Spans.{next_span};
ghost use Rattle.relay_core.specs.Strangers.{EndsBy, IsTested, JudgesOn, if_frame};
ghost use Rattle.relay_core.specs.Said.{Said};

use crate::NoMemory;
use crate::watcher::Watcher;
use mav_frame::RawFrame;
use mav_router::{RouterRules, judge};
use mav_sign::Admit;
use mav_stream::{NextSpan, Scanner};
use relay_rules::Links;

// Judges a frame, and tells the watcher if it is refused; whether it is.
fn refuse<W: Watcher>(
    links: &mut Links,
    rules: &RouterRules<'_>,
    port: u8,
    frame: &RawFrame<'_>,
    watcher: &mut W,
) -> Result<bool, NoMemory>
    requires from { 1 ≤ port }
    requires to { port ≤ 8 }
    ensures tests { IfOk result (λ refused. IsTested rules.now port frame.now refused links.old links.new
        W.told watcher.old watcher.new) }
    ensures unchanged { OnErr result (links.new ≡ links.old) }
    ensures untold { OnErr result ((all : List Said) → W.told watcher.old all → W.told watcher.new all) }
    ensures links { links.new.links ≡ links.old.links }
{
    let judgement = judge(rules, frame);
    links.make_room()?;
    let answer = links.test(rules, port, frame, judgement);
    if let Admit::Admitted = answer {
        return Ok(false);
    }
    let nobody: [u64; 0] = [];
    watcher.tell(0, frame, answer, &nobody);
    Ok(true)
}

// Judges what is at the start of the bytes that are held of a stranger; whether it is passed by. It isn't if no whole
// frame is there, or one that would be admitted.
fn judge_next<W: Watcher>(
    links: &mut Links,
    scanner: &mut Scanner,
    rules: &RouterRules<'_>,
    port: u8,
    watcher: &mut W,
) -> Result<bool, NoMemory>
    requires from { 1 ≤ port }
    requires to { port ≤ rules.now.ports }
    requires ports { rules.now.ports ≤ 8 }
    ensures judges { JudgesOn rules.now port links.old links.new scanner.old scanner.new
        W.told watcher.old watcher.new }
    ensures links { links.new.links ≡ links.old.links }
    ensures live { scanner.new.ended ≡ scanner.old.ended }
    ensures least { length scanner.new.bytes ≤ length scanner.old.bytes }
    ensures fewer { IfOk result (λ more. more ≡ true → length scanner.new.bytes < length scanner.old.bytes) }
    ensures ends { IfOk result (λ more. more ≡ false → scanner.old.ended ≡ false
        → EndsBy rules.now port links.new.kept scanner.new (next_span scanner.new)) }
{
    match scanner.next_span() {
        NextSpan::Need => Ok(false),
        NextSpan::Skipped(_, count) => {
            scanner.consume(count);
            Ok(true)
        }
        NextSpan::Frame(size) => {
            let frame = scanner.raw_frame(size);
            let refused = refuse(links, rules, port, &frame, watcher)?;
            if refused {
                scanner.consume(size);
            }
            Ok(refused)
        }
    }
}

/// Judges what is held of a stranger, up to the first frame that would be admitted.
pub(crate) fn judge_all<W: Watcher>(
    links: &mut Links,
    scanner: &mut Scanner,
    rules: &RouterRules<'_>,
    port: u8,
    watcher: &mut W,
) -> Result<(), NoMemory>
    requires from { 1 ≤ port }
    requires to { port ≤ rules.now.ports }
    requires ports { rules.now.ports ≤ 8 }
    requires live { scanner.old.ended ≡ false }
    ensures judges { JudgesOn rules.now port links.old links.new scanner.old scanner.new
        W.told watcher.old watcher.new }
    ensures links { links.new.links ≡ links.old.links }
    ensures fewer { length scanner.new.bytes ≤ length scanner.old.bytes }
    ensures ends { OnOk result (EndsBy rules.now port links.new.kept scanner.new (next_span scanner.new)) }
{
    while judge_next(links, scanner, rules, port, watcher)? {}
    Ok(())
}

/// Where the frame stands that is at the start of what is held, if one is, among so many bytes of which this is the
/// end.
pub(crate) fn frame_place(scanner: &Scanner, count: usize) -> Option<usize>
    requires { length scanner.now.bytes ≤ count }
    ensures place { result ≡ if_frame (next_span scanner.now) (count - length scanner.now.bytes) }
    ensures within { IfSome result (λ from. from ≤ count) }
{
    match scanner.next_span() {
        NextSpan::Frame(_) => Some(count - scanner.bytes().len()),
        NextSpan::Skipped(_, _) => None,
        NextSpan::Need => None,
    }
}
