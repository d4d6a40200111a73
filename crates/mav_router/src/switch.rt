// The switch.
ghost use Rattle.std.specs.Prelude.{◌≡◌, ◌+◌, ◌-◌, ◌<◌, ◌≤◌, ◌++◌, ◌∷◌, [], ℕ, List, length, take, slice_index};
ghost use Rattle.std.specs.Prelude.{slice_get, Some, None, Err, IfOk, IfErr, OnOk, OnErr, OnSome, IfSome, IfNone};
ghost use Rattle.std.specs.Prelude.{IsErrOf, true, All};
ghost use Rattle.mav_sign.specs.Streams.{listed};
ghost use Rattle.mav_sign.specs.Kept.{Represents};
ghost use Rattle.link_table.specs.Routing.{has_port};
ghost use Rattle.link_table.specs.Table.{Represents as StandsFor};
ghost use Rattle.mav_router.specs.Journal.{SwitchState, entry_after, admit_after, IsJournal, frames_to, frames_at};
ghost use Rattle.mav_router.specs.Journal.{given_to};
ghost use Rattle.mav_router.specs.Found.{Admits, IsJudged, packets_of};
ghost use Rattle.mav_router.specs.Faults.{IsSwitchFault};
ghost use Rattle.mav_router.specs.declared.entries.Entry.{Entry};

use crate::found::FoundFrames;
use crate::journal::ENTRY_LIMIT;
use crate::{Journal, NoMemory, RouterRules, SwitchFault};
use dialect::Dialect;
use link_table::{LinkTable, Ways};
use mav_frame::Frame;
use mav_names::Name;
use mav_sign::{Admit, Key, Stamps};
use std::alloc::Global;
use std::marker::Model;

/// It admits the frames that come in at the ports of a router, keeps an entry of each, and gives each port the frames
/// that go out there, in the order in which they came in.
#[derive(Drop)]
pub struct Switch<'a> {
    rules: RouterRules<'a>,
    stamps: Stamps,
    table: LinkTable,
    journal: Journal,
    seen: [usize; 8],
}

impl<'a> Model for Switch<'a> {
    ghost use Rattle.std.specs.Prelude.{◌≡◌, ◌≤◌, [], ℕ, length, slice_index};
    ghost use Rattle.mav_sign.specs.Kept.{Represents};
    ghost use Rattle.link_table.specs.Table.{Represents as StandsFor};
    ghost use Rattle.mav_router.specs.Journal.{SwitchState, learned_in, tried_in, IsJournal};

    ghost Value = { SwitchState };

    ghost view = { λ s. record {
      rules = s.rules;
      journal = s.journal;
      seen = s.seen;
    } };

    ghost invariant = { λ s. (1 ≤ s.rules.ports) × (s.rules.ports ≤ 8) × (s.table.ports ≡ s.rules.ports)
        × Represents s.stamps (tried_in s.journal)
        × StandsFor s.table (learned_in s.journal)
        × IsJournal s.rules [] s.journal
        × ((k : ℕ) → slice_index s.seen k ≤ length s.journal)
        × (length s.journal ≤ 1000000) };
}

// The index of the next entry that goes out at the port, or the number of entries.
pub(crate) fn next_index(journal: &Journal, from: usize, port: u8) -> usize
    requires from { from ≤ length journal.now }
    requires port { 1 ≤ port }
    requires to { port ≤ 8 }
    ensures from { from ≤ result }
    ensures within { result ≤ length journal.now }
    ensures none { frames_to port (take result journal.now) ≡ frames_to port (take from journal.now) }
    ensures goes { (entry : _) → slice_get journal.now result ≡ Some entry → has_port entry.ways port ≡ true }
{
    let mut index = from;
    while index < journal.len() {
        if journal.outcome(index).ways.has(port) {
            return index;
        }
        index += 1;
    }
    index
}

// The verdict on the frame of the last entry.
fn last_verdict(journal: &Journal) -> Admit
    requires { 0 < length journal.now }
    ensures { (before : List Entry) (last : Entry) → journal.now ≡ before ++ last ∷ [] → result ≡ last.admit }
{
    journal.outcome(journal.len() - 1).admit
}

impl<'a> Switch<'a> {
    /// Nothing came in yet. The ports of `plain` are open to frames without a signature block.
    pub fn new(
        alloc: Global,
        key: Key,
        known: &'a Dialect,
        ports: u8,
        plain: Ways,
    ) -> Result<Switch<'a>, NoMemory>
        requires from { 1 ≤ ports }
        requires to { ports ≤ 8 }
        ensures rules { IfOk result (λ s. s.rules ≡ record
            { key = key; known = known.now; ports = ports; plain = plain }) }
        ensures journal { IfOk result (λ s. s.journal ≡ []) }
        ensures given { IfOk result (λ s. (port : ℕ) → given_to s port ≡ []) }
    {
        let stamps = Stamps::new(alloc)?;
        let table = LinkTable::new(alloc, ports)?;
        let rules = RouterRules {
            key,
            known,
            ports,
            plain,
        };
        Ok(Switch {
            rules,
            stamps,
            table,
            journal: Journal::new(alloc),
            seen: [0, 0, 0, 0, 0, 0, 0, 0],
        })
    }

    /// Tries a frame that came in at the port, and keeps its entry.
    pub fn admit(&mut self, port: u8, frame: &Frame) -> Result<Admit, SwitchFault>
        requires from { 1 ≤ port }
        requires to { port ≤ self.old.rules.ports }
        ensures verdict { IfOk result (λ verdict. verdict ≡ admit_after self.old.rules self.old.journal port
            frame.now) }
        ensures journal { OnOk result (self.new.journal ≡ self.old.journal ++ entry_after self.old.rules
            self.old.journal port frame.now ∷ []) }
        ensures same { (self.new.rules ≡ self.old.rules) × (self.new.seen ≡ self.old.seen) }
        ensures given { (other : ℕ) → given_to self.new other ≡ given_to self.old other }
        ensures unchanged { OnErr result (self.new.journal ≡ self.old.journal) }
        ensures full { length self.old.journal ≡ 1_000_000 → IsErrOf result (SwitchFault.Full 1000000) }
        ensures fault { IfErr result (λ fault. IsSwitchFault fault self.old.journal) }
    {
        if self.journal.len() >= ENTRY_LIMIT {
            return Err(SwitchFault::Full { entries: 1_000_000 });
        }
        let mut found = FoundFrames::new(self.journal.alloc());
        if let Err(_) = found.keep(&self.rules, frame) {
            return Err(SwitchFault::NoMemory);
        }
        if let Err(fault) = self.admit_found(port, &mut found) {
            return Err(fault);
        }
        Ok(last_verdict(&self.journal))
    }

    /// Tries frames that were found at the port and judged by the switch's rules, in their order, until it doesn't
    /// take one, and keeps their entries. Their pages can be shared.
    pub(crate) fn admit_found(
        &mut self,
        port: u8,
        found: &mut FoundFrames,
    ) -> Result<(), SwitchFault>
        requires from { 1 ≤ port }
        requires to { port ≤ self.old.rules.ports }
        requires judged { All (IsJudged self.old.rules) found.old }
        ensures same { (self.new.rules ≡ self.old.rules) × (self.new.seen ≡ self.old.seen) }
        ensures legal { 0 < length found.old → IsJournal self.new.rules [] self.new.journal }
        ensures admits { Admits result port self.old.journal self.new.journal (packets_of found.old) }
        ensures given { (other : ℕ) → given_to self.new other ≡ given_to self.old other }
        ensures fault { IfErr result (λ fault. IsSwitchFault fault self.new.journal) }
    {
        if found.len() == 0 {
            return Ok(());
        }
        self.journal.seal();
        let admitted = self.journal.admit_found(
            &self.rules,
            &mut self.stamps,
            &mut self.table,
            port,
            found,
        );
        self.journal.seal();
        admitted
    }

    /// The next frame that goes out at the port and wasn't taken yet.
    pub fn take(&mut self, port: u8) -> Option<Frame>
        requires from { 1 ≤ port }
        requires to { port ≤ self.old.rules.ports }
        ensures given { given_to self.new port ≡ given_to self.old port ++ listed result }
        ensures none { IfNone result (given_to self.new port ≡ frames_to port self.old.journal) }
        ensures same { (self.new.rules ≡ self.old.rules) × (self.new.journal ≡ self.old.journal) }
        ensures others { (other : ℕ) → 1 ≤ other → (other ≡ port → ⊥)
            → given_to self.new other ≡ given_to self.old other }
    {
        let Some(index) = self.next(port) else {
            return None;
        };
        Some(self.journal.frame(index).to_frame())
    }

    // The index of that frame's entry.
    fn next(&mut self, port: u8) -> Option<usize>
        requires from { 1 ≤ port }
        requires to { port ≤ self.old.rules.ports }
        ensures given { given_to self.new port ≡ given_to self.old port ++ frames_at self.old.journal result }
        ensures within { IfSome result (λ index. index < length self.old.journal) }
        ensures none { IfNone result (given_to self.new port ≡ frames_to port self.old.journal) }
        ensures same { (self.new.rules ≡ self.old.rules) × (self.new.journal ≡ self.old.journal) }
        ensures others { (other : ℕ) → 1 ≤ other → (other ≡ port → ⊥)
            → given_to self.new other ≡ given_to self.old other }
        ensures moves { OnSome result ((slice_index self.old.seen (port - 1) < slice_index self.new.seen (port - 1))
            × (slice_index self.new.seen (port - 1) ≤ length self.old.journal)) }
    {
        let at = usize::from(port - 1);
        let index = next_index(&self.journal, self.seen[at], port);
        if index == self.journal.len() {
            self.seen[at] = index;
            return None;
        }
        self.seen[at] = index + 1;
        Some(index)
    }

    /// How many entries were looked through for the port.
    pub(crate) fn seen(&self, port: u8) -> usize
        requires from { 1 ≤ port }
        requires to { port ≤ self.now.rules.ports }
        ensures seen { result ≡ slice_index self.now.seen (port - 1) }
        ensures within { result ≤ length self.now.journal }
        ensures ports { self.now.rules.ports ≤ 8 }
    {
        self.seen[usize::from(port - 1)]
    }

    /// So many were looked through for it now.
    pub(crate) fn pass(&mut self, port: u8, seen: usize)
        requires from { 1 ≤ port }
        requires to { port ≤ self.old.rules.ports }
        requires within { seen ≤ length self.old.journal }
        ensures same { (self.new.rules ≡ self.old.rules) × (self.new.journal ≡ self.old.journal) }
        ensures given { given_to self.new port ≡ frames_to port (take seen self.old.journal) }
        ensures others { (other : ℕ) → 1 ≤ other → (other ≡ port → ⊥)
            → given_to self.new other ≡ given_to self.old other }
    {
        self.seen[usize::from(port - 1)] = seen;
    }

    pub(crate) fn rules(&self) -> &RouterRules<'a>
        ensures { result.now ≡ self.now.rules }
    {
        &self.rules
    }

    // How many entries there are.
    pub(crate) fn count(&self) -> u64
        ensures count { result ≡ length self.now.journal }
        ensures few { result ≤ 1000000 }
    {
        self.journal.len() as u64
    }

    /// The entries so far.
    pub fn journal(&self) -> &Journal
        ensures entries { result.now ≡ self.now.journal }
        ensures within { length self.now.journal ≤ 1000000 }
    {
        &self.journal
    }

    /// The entries, which are a journal by the switch's rules.
    pub fn into_journal(self) -> Journal
        ensures journal { result ≡ self.entry.journal }
        ensures legal { IsJournal self.entry.rules [] result }
        ensures within { length result ≤ 1000000 }
    {
        self.journal
    }
}
