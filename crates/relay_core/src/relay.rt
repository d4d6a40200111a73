// The switch of a relay.
ghost use Rattle.std.specs.Prelude.{◌≡◌, ◌+◌, ◌<◌, ◌≤◌, ◌^◌, ◌++◌, ◌∷◌, [], length, slice_get, Some, IfOk};
ghost use Rattle.std.specs.Prelude.{IfSome, OnOk, OnErr, IsTrue};
ghost use Rattle.std.specs.List.{remove};
ghost use Rattle.relay_queue.specs.Queues.{next_bytes};
ghost use Rattle.relay_core.specs.Calls.{Closes, Hears, HearsInPart, IsNew, IsWhole, Opens, Takes};
ghost use Rattle.relay_core.specs.Strangers.{Judges, JudgesInPart};
ghost use Rattle.relay_core.specs.Waitings.{WaitingState, lost};

use crate::NoMemory;
use crate::queues::Queues;
use crate::scanners::Scanners;
use crate::strangers::{frame_place, judge_all};
use crate::streams::hear_all;
use crate::watcher::Watcher;
use mav_router::RouterRules;
use relay_rules::{Links, OpenLink};
use std::alloc::Global;
use std::marker::Model;

/// The links that are open, with the stream of each and what waits for it.
pub struct Relay {
    links: Links,
    scanners: Scanners,
    queues: Queues,
}

// By hand, so that whoever drops it proves one call.
impl Drop for Relay {
    fn drop(self) {
        let Relay {
            links: _links,
            scanners: _scanners,
            queues: _queues,
        } = self;
    }
}

impl Model for Relay {
    ghost use Rattle.std.specs.Prelude.{◌≡◌, length};
    ghost use Rattle.relay_core.specs.RelayRuns.{RelayKept};

    ghost Value = { RelayKept };

    ghost view = { λ r. record { links = r.links; scanners = r.scanners; queues = r.queues } };

    ghost invariant = { λ r. (length r.scanners ≡ length r.links.links) × (length r.queues ≡ length r.links.links) };
}

impl Relay {
    /// No link was opened. Allocates the memory for all that is kept of nodes and of the verifier.
    pub fn new(alloc: Global) -> Result<Relay, NoMemory>
        ensures { IfOk result (λ r. IsNew r) }
    {
        let links = Links::new(alloc)?;
        let scanners = Scanners::new(alloc)?;
        let queues = Queues::new(alloc)?;
        Ok(Relay {
            links,
            scanners,
            queues,
        })
    }

    /// How many links are open.
    pub fn len(&self) -> usize
        ensures count { result ≡ length self.now.links.links }
        ensures few { result ≤ 32 }
    {
        self.links.count()
    }

    /// The number and the port of the open link with that index, in the order of opening.
    pub fn link(&self, index: usize) -> OpenLink
        requires { index < length self.now.links.links }
        ensures link { slice_get self.now.links.links index ≡ Some result }
        ensures from { 1 ≤ result.port }
        ensures to { result.port ≤ 8 }
    {
        self.links.link(index)
    }

    /// Whether another link may be opened: not if 32 are open, or no number is left.
    pub fn has_room(&self) -> bool
        ensures few { IsTrue result → length self.now.links.links < 32 }
        ensures numbers { IsTrue result → self.now.links.given + 1 < 2 ^ 64 }
        ensures room { length self.now.links.links < 32 → self.now.links.given + 1 < 2 ^ 64 → IsTrue result }
        ensures whole { IsWhole self.now }
    {
        self.links.has_room()
    }

    /// Opens a link at a port, and returns its number, the next one. Without memory nothing changes.
    pub fn open(&mut self, rules: &RouterRules<'_>, port: u8) -> Result<u64, NoMemory>
        requires from { 1 ≤ port }
        requires to { port ≤ rules.now.ports }
        requires ports { rules.now.ports ≤ 8 }
        requires few { length self.old.links.links < 32 }
        requires numbers { self.old.links.given + 1 < 2 ^ 64 }
        ensures number { IfOk result (λ number. number ≡ self.old.links.given + 1) }
        ensures opens { OnOk result (Opens rules.now port self.old self.new) }
        ensures links { IfOk result (λ number. self.new.links.links ≡ self.old.links.links ++
            (record { number = number; port = port }) ∷ []) }
        ensures unchanged { OnErr result (self.new ≡ self.old) }
    {
        let scanner = self.scanners.make(rules, port)?;
        self.queues.open()?;
        self.scanners.open(scanner);
        Ok(self.links.open(port))
    }

    /// Closes the open link with that index; each later link's index is one less. Returns how many of its frames were
    /// dropped in all, with those that weren't written to their ends.
    pub fn close(&mut self, index: usize) -> u64
        requires { index < length self.old.links.links }
        ensures closes { Closes index result self.old self.new }
        ensures links { self.new.links.links ≡ remove self.old.links.links index }
        ensures given { self.new.links.given ≡ self.old.links.given }
    {
        self.links.close(index);
        self.scanners.close(index);
        self.queues.close(index)
    }

    /// The open link with that index gave these bytes: each frame that they end is tried, waits where it goes, and is
    /// told to the watcher. Without memory what waits is of no use any more, and what was told is true.
    pub fn hear<W: Watcher>(
        &mut self,
        rules: &RouterRules<'_>,
        index: usize,
        bytes: &[u8],
        watcher: &mut W,
    ) -> Result<(), NoMemory>
        requires within { index < length self.old.links.links }
        requires short { length bytes.now ≤ 65536 }
        ensures hears { OnOk result (Hears rules.now index bytes.now self.old self.new W.told watcher.old
            watcher.new) }
        ensures stops { OnErr result (HearsInPart rules.now index bytes.now self.old W.told watcher.old watcher.new) }
        ensures links { self.new.links.links ≡ self.old.links.links }
        ensures given { self.new.links.given ≡ self.old.links.given }
    {
        let _taken = self.scanners.feed(index, bytes);
        hear_all(
            &mut self.links,
            &mut self.scanners,
            &mut self.queues,
            rules,
            index,
            watcher,
        )
    }

    /// Judges the datagram of somebody at a port who has no link yet, as on a link of its own: what it leaves
    /// unfinished is forgotten. The watcher is told of each frame that is refused. Returns where the first one begins
    /// that would be admitted: once the sender has a link, `hear` judges it and what comes after it.
    pub fn judge_stranger<W: Watcher>(
        &mut self,
        rules: &RouterRules<'_>,
        port: u8,
        bytes: &[u8],
        watcher: &mut W,
    ) -> Result<Option<usize>, NoMemory>
        requires from { 1 ≤ port }
        requires to { port ≤ rules.now.ports }
        requires ports { rules.now.ports ≤ 8 }
        requires short { length bytes.now ≤ 65536 }
        ensures judges { IfOk result (Judges rules.now port bytes.now self.old self.new W.told watcher.old
            watcher.new) }
        ensures stops { OnErr result (JudgesInPart rules.now port bytes.now self.old self.new W.told watcher.old
            watcher.new) }
        ensures links { self.new.links.links ≡ self.old.links.links }
        ensures within { IfOk result (λ place. IfSome place (λ from. from ≤ length bytes.now)) }
        ensures whole { IsWhole self.new }
        ensures others { (self.new.scanners ≡ self.old.scanners) × (self.new.queues ≡ self.old.queues) }
    {
        let mut scanner = self.scanners.make(rules, port)?;
        let _taken = scanner.feed(bytes);
        judge_all(&mut self.links, &mut scanner, rules, port, watcher)?;
        Ok(frame_place(&scanner, bytes.len()))
    }

    /// The bytes to write next to the open link with that index.
    pub fn next_bytes(&self, index: usize) -> &[u8]
        requires { index < length self.now.links.links }
        ensures whole { IsWhole self.now }
        ensures bytes { (waiting : WaitingState) → slice_get self.now.queues index ≡ Some waiting
            → result.now ≡ next_bytes waiting.queue }
    {
        self.queues.next_bytes(index)
    }

    /// That link took so many of them.
    pub fn wrote(&mut self, index: usize, count: usize)
        requires within { index < length self.old.links.links }
        requires count { (waiting : WaitingState) → slice_get self.old.queues index ≡ Some waiting
            → count ≤ length (next_bytes waiting.queue) }
        ensures takes { Takes index count self.old self.new }
        ensures links { self.new.links ≡ self.old.links }
    {
        self.queues.wrote(index, count);
    }

    /// How many frames of that link were dropped so far.
    pub fn dropped(&self, index: usize) -> u64
        requires { index < length self.now.links.links }
        ensures { (waiting : WaitingState) → slice_get self.now.queues index ≡ Some waiting
            → result ≡ waiting.dropped }
    {
        self.queues.dropped(index)
    }
}
