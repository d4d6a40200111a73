// What a frame does that comes in at a link.
ghost use Rattle.std.specs.Prelude.{◌≡◌, ◌+◌, ◌<◌, ◌≤◌, length, take, slice_get, Some, IfOk, OnErr, List, ℕ};
ghost use Rattle.link_table.specs.OpenLinks.{has_link};
ghost use Rattle.relay_rules.specs.Kept.{Represents};
ghost use Rattle.relay_rules.specs.States.{RelayState};
ghost use Rattle.relay_rules.specs.declared.links.OpenLink.{OpenLink};
ghost use Rattle.relay_core.specs.Flows.{one_told};
ghost use Rattle.relay_core.specs.Moves.{IsTried, numbers_of};
ghost use Rattle.relay_core.specs.Said.{Said, Tells};

use crate::NoMemory;
use crate::watcher::Watcher;
use link_table::LinkSet;
use mav_frame::RawFrame;
use mav_router::{RouterRules, judge};
use relay_rules::{Heard, Links};

// At most so many links are open at once.
const LINK_LIMIT: usize = 32;

// The numbers of the links of a set, in their order, are put at the start of these; how many they are.
fn put_numbers(links: &Links, ways: LinkSet, numbers: &mut [u64; LINK_LIMIT]) -> usize
    ensures few { result ≤ 32 }
    ensures numbers { take result numbers.new ≡ numbers_of (has_link ways.bits) 0 links.now.links }
{
    let mut count = 0;
    for at in 0..links.count() {
        if ways.has(at as u8) {
            numbers[count] = links.link(at).number;
            count += 1;
        }
    }
    count
}

// Tells the watcher of a frame of the open link with that index.
fn tell<W: Watcher>(
    links: &Links,
    index: usize,
    frame: &RawFrame<'_>,
    heard: Heard,
    watcher: &mut W,
)
    requires within { index < length links.now.links }
    ensures { (link : OpenLink) → slice_get links.now.links index ≡ Some link
        → Tells W.told watcher.old watcher.new
        (one_told link.number frame.now heard.admit (numbers_of (has_link heard.ways.bits) 0 links.now.links)) }
{
    let mut numbers = [0; LINK_LIMIT];
    let count = put_numbers(links, heard.ways, &mut numbers);
    let number = links.link(index).number;
    watcher.tell(number, frame, heard.admit, &numbers[..count]);
}

/// Tries a frame that came in at the open link with that index, and tells the watcher of it. Returns where it goes.
pub(crate) fn try_frame<W: Watcher>(
    links: &mut Links,
    rules: &RouterRules<'_>,
    index: usize,
    frame: &RawFrame<'_>,
    watcher: &mut W,
) -> Result<LinkSet, NoMemory>
    requires within { index < length links.old.links }
    ensures tries { IfOk result (λ ways. (state : RelayState) → Represents links.old state
        → IsTried rules.now index ways.bits frame.now state links.new W.told watcher.old watcher.new) }
    ensures unchanged { OnErr result (links.new ≡ links.old) }
    ensures untold { OnErr result ((all : List Said) → W.told watcher.old all → W.told watcher.new all) }
    ensures links { links.new.links ≡ links.old.links }
    ensures given { links.new.given ≡ links.old.given }
{
    let judgement = judge(rules, frame);
    links.make_room()?;
    let heard = links.hear(rules, index, frame, judgement);
    tell(links, index, frame, heard, watcher);
    Ok(heard.ways)
}
