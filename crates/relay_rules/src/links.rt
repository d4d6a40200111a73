// The links of a relay.
ghost use Rattle.std.specs.Prelude.{◌≡◌, ◌+◌, ◌<◌, ◌≤◌, ◌&&◌, [], ℕ, length, slice_get, Some, IfOk, OnOk, OnErr};
ghost use Rattle.std.specs.Prelude.{IsTrue, ◌^◌, ◌++◌, ◌∷◌, true, false, vec_len, vec_capacity};
ghost use Rattle.std.specs.List.{remove};
ghost use Rattle.link_table.specs.OpenLinks.{has_link};
ghost use Rattle.link_table.specs.Routing.{has_port};
ghost use Rattle.mav_sign.specs.History.{is_admitted};
ghost use Rattle.mav_sign.specs.Kept.{HasRoom, Represents as OfHistory};
ghost use Rattle.mav_sign.specs.Signing.{verified};
ghost use Rattle.mav_router.specs.Admitting.{IsVerdictBy, verdict_by};
ghost use Rattle.mav_router.specs.Journal.{target_by};
ghost use Rattle.relay_rules.specs.Kept.{Represents};
ghost use Rattle.relay_rules.specs.Ways.{Chooses, is_chosen};
ghost use Rattle.relay_rules.specs.declared.links.OpenLink.{OpenLink as Opened};
ghost use Rattle.relay_rules.specs.States.{RelayState, closed, goes_to, heard, link_at, opened};

use crate::NoMemory;
use link_table::{LinkSet, OpenTable, Ways};
use mav_frame::RawFrame;
use mav_names::Name;
use mav_router::{Judgement, RouterRules, verdict};
use mav_sign::{Admit, Stamps};
use std::alloc::Global;
use std::marker::Model;

/// At most so many links are open at once.
pub const LINK_LIMIT: usize = 32;

/// The number of a link that is open, and its port.
#[derive(Clone, Copy)]
pub struct OpenLink {
    pub number: u64,
    pub port: u8,
}

/// The verdict on a frame, and the links that it goes to.
#[derive(Clone, Copy)]
pub struct Heard {
    pub admit: Admit,
    pub ways: LinkSet,
}

/// The links that are open, in the order of their opening, with the nodes behind them and the verifier of all.
pub struct Links {
    given: u64,
    links: Vec<OpenLink>,
    table: OpenTable,
    stamps: Stamps,
}

// By hand, so that whoever drops them proves one call.
impl Drop for Links {
    fn drop(self) {
        let Links {
            given: _,
            links: _links,
            table: _table,
            stamps: _stamps,
        } = self;
    }
}

impl Model for Links {
    ghost use Rattle.std.specs.Prelude.{◌≤◌, vec_len, vec_capacity};
    ghost use Rattle.relay_rules.specs.Kept.{AreNumbered, LinksKept};

    ghost Value = { LinksKept };

    ghost view = { λ l. record { given = l.given; links = l.links.items; words = l.table; kept = l.stamps } };

    ghost invariant = { λ l. (vec_len l.links ≤ 32) × (32 ≤ vec_capacity l.links)
        × AreNumbered l.given l.links.items };
}

fn add(links: &mut Vec<OpenLink>, link: OpenLink)
    requires { vec_len links.old < vec_capacity links.old }
    ensures items { links.new.items ≡ links.old.items ++ link ∷ [] }
    ensures len { vec_len links.new ≡ vec_len links.old + 1 }
    ensures room { vec_capacity links.old ≤ vec_capacity links.new }
{
    let pushed: Result<_, _> = links.push(link);
    pushed.unwrap();
}

// Whether a frame goes to the link with that index: another one that is in the set, and an open port's for a frame
// without a signature block.
fn is_way(
    link: OpenLink,
    index: usize,
    behind: LinkSet,
    own: usize,
    is_signed: bool,
    plain: Ways,
) -> bool
    requires few { index < 32 }
    requires from { 1 ≤ link.port }
    requires to { link.port ≤ 8 }
    ensures { result ≡ is_chosen link index behind.bits own is_signed plain }
{
    index != own && behind.has(index as u8) && (is_signed || plain.has(link.port))
}

// Those of the links that it goes to.
fn chosen(links: &[OpenLink], behind: LinkSet, own: usize, is_signed: bool, plain: Ways) -> LinkSet
    requires few { length links.now ≤ 32 }
    requires ports { (i : ℕ) (a : Opened) → slice_get links.now i ≡ Some a → (1 ≤ a.port) × (a.port ≤ 8) }
    ensures { Chooses links.now behind.bits own is_signed plain result.bits }
{
    let mut ways = LinkSet::none();
    for at in 0..links.len() {
        if is_way(links[at], at, behind, own, is_signed, plain) {
            ways = ways.with(at as u8);
        }
    }
    ways
}

impl Links {
    /// No link was opened. Allocates the memory for all that is kept later.
    pub fn new(alloc: Global) -> Result<Links, NoMemory>
        ensures state { IfOk result (λ l. Represents l (record { given = 0; links = []; kept = l.kept })) }
        ensures history { IfOk result (λ l. OfHistory l.kept []) }
    {
        let stamps = Stamps::new(alloc)?;
        let table = OpenTable::new(alloc)?;
        let links = Vec::with_capacity(alloc, LINK_LIMIT)?;
        Ok(Links {
            given: 0,
            links,
            table,
            stamps,
        })
    }

    /// How many links are open.
    pub fn count(&self) -> usize
        ensures count { result ≡ length self.now.links }
        ensures few { result ≤ 32 }
    {
        self.links.len()
    }

    /// The open link with that index.
    pub fn link(&self, index: usize) -> OpenLink
        requires { index < length self.now.links }
        ensures link { slice_get self.now.links index ≡ Some result }
        ensures from { 1 ≤ result.port }
        ensures to { result.port ≤ 8 }
    {
        self.links[index]
    }

    /// Whether another link may be opened: not if 32 are open, or no number is left.
    pub fn has_room(&self) -> bool
        ensures few { IsTrue result → length self.now.links < 32 }
        ensures numbers { IsTrue result → self.now.given + 1 < 2 ^ 64 }
        ensures room { length self.now.links < 32 → self.now.given + 1 < 2 ^ 64 → IsTrue result }
    {
        self.links.len() < LINK_LIMIT && self.given < u64::MAX
    }

    /// Opens a link at a port, with the next number, which is returned.
    pub fn open(&mut self, port: u8) -> u64
        requires from { 1 ≤ port }
        requires to { port ≤ 8 }
        requires few { length self.old.links < 32 }
        requires numbers { self.old.given + 1 < 2 ^ 64 }
        ensures number { result ≡ self.old.given + 1 }
        ensures links { self.new.links ≡ self.old.links ++ (record { number = result; port = port }) ∷ [] }
        ensures given { self.new.given ≡ result }
        ensures state { (state : RelayState) → Represents self.old state → Represents self.new (opened port state) }
    {
        self.given += 1;
        let number = self.given;
        add(&mut self.links, OpenLink { number, port });
        self.table.open();
        number
    }

    /// Closes the link with that index; each later link's index is one less.
    pub fn close(&mut self, index: usize)
        requires { index < length self.old.links }
        ensures links { self.new.links ≡ remove self.old.links index }
        ensures given { self.new.given ≡ self.old.given }
        ensures state { (state : RelayState) → Represents self.old state → Represents self.new (closed index state) }
    {
        let _link = self.links.remove(index);
        self.table.close(index as u8);
    }

    /// Has the verifier forget who left, if it has no room for another stream.
    pub fn make_room(&mut self) -> Result<(), NoMemory>
        ensures kept { OnOk result (HasRoom self.old.kept self.new.kept) }
        ensures links { (self.new.given ≡ self.old.given) × (self.new.links ≡ self.old.links)
            × (self.new.words ≡ self.old.words) }
        ensures unchanged { OnErr result (self.new ≡ self.old) }
    {
        self.stamps.make_room()?;
        Ok(())
    }

    /// The verdict that `hear` would give on a frame at a port that is open or not. Nothing changes.
    pub fn test(
        &self,
        rules: &RouterRules<'_>,
        port: u8,
        frame: &RawFrame<'_>,
        judgement: Judgement,
    ) -> Admit
        requires from { 1 ≤ port }
        requires to { port ≤ 8 }
        requires verifies { judgement.verifies ≡ verified rules.now.key frame.now frame.now.block }
        ensures { result ≡ verdict_by rules.now.key (has_port rules.now.plain port) self.now.kept frame.now }
    {
        if !frame.has_block() && rules.plain().has(port) {
            return Admit::Admitted;
        }
        self.stamps
            .test_judged(rules.key(), frame, judgement.verifies)
    }

    /// Tries a frame that came in at the open link with that index, and was judged by these rules.
    pub fn hear(
        &mut self,
        rules: &RouterRules<'_>,
        index: usize,
        frame: &RawFrame<'_>,
        judgement: Judgement,
    ) -> Heard
        requires within { index < length self.old.links }
        requires verifies { judgement.verifies ≡ verified rules.now.key frame.now frame.now.block }
        requires target { judgement.target ≡ target_by rules.now frame.now }
        ensures verdict { (state : RelayState) → Represents self.old state
            → IsVerdictBy rules.now.key (has_port rules.now.plain (link_at state.links index).port) self.old.kept
            self.new.kept frame.now result.admit }
        ensures ways { (state : RelayState) → Represents self.old state
            → (k : ℕ) → k < length state.links → has_link result.ways.bits k
            ≡ (is_admitted result.admit && goes_to rules.now frame.now (link_at state.links index)
            (link_at state.links k)) }
        ensures few { (k : ℕ) → length self.old.links ≤ k → has_link result.ways.bits k ≡ false }
        ensures state { (state : RelayState) → Represents self.old state
            → Represents self.new (heard index (is_admitted result.admit) frame.now.from self.new.kept state) }
        ensures links { self.new.links ≡ self.old.links }
        ensures given { self.new.given ≡ self.old.given }
    {
        let link = self.link(index);
        let is_open = rules.plain().has(link.port);
        let admit = verdict(
            &mut self.stamps,
            rules.key(),
            is_open,
            frame,
            judgement.verifies,
        );
        let ways = self.route(rules, index, admit, frame, judgement.target);
        Heard { admit, ways }
    }

    // The links that a frame with this verdict goes to. An admitted one teaches where its sender is.
    fn route(
        &mut self,
        rules: &RouterRules<'_>,
        index: usize,
        admit: Admit,
        frame: &RawFrame<'_>,
        target: Name,
    ) -> LinkSet
        requires within { index < length self.old.links }
        requires target { target ≡ target_by rules.now frame.now }
        ensures ways { (state : RelayState) → Represents self.old state
            → (k : ℕ) → k < length state.links → has_link result.bits k
            ≡ (is_admitted admit && goes_to rules.now frame.now (link_at state.links index) (link_at state.links k)) }
        ensures few { (k : ℕ) → length self.old.links ≤ k → has_link result.bits k ≡ false }
        ensures kept { self.new.kept ≡ self.old.kept }
        ensures links { self.new.links ≡ self.old.links }
        ensures given { self.new.given ≡ self.old.given }
        ensures state { (state : RelayState) → Represents self.old state
            → Represents self.new (heard index (is_admitted admit) frame.now.from self.old.kept state) }
    {
        if let Admit::Admitted = admit {
            self.send(rules, index, frame, target)
        } else {
            LinkSet::none()
        }
    }

    // The links that an admitted frame goes to.
    fn send(
        &mut self,
        rules: &RouterRules<'_>,
        index: usize,
        frame: &RawFrame<'_>,
        target: Name,
    ) -> LinkSet
        requires within { index < length self.old.links }
        requires target { target ≡ target_by rules.now frame.now }
        ensures ways { (state : RelayState) → Represents self.old state
            → (k : ℕ) → k < length state.links → has_link result.bits k
            ≡ goes_to rules.now frame.now (link_at state.links index) (link_at state.links k) }
        ensures few { (k : ℕ) → length self.old.links ≤ k → has_link result.bits k ≡ false }
        ensures kept { self.new.kept ≡ self.old.kept }
        ensures links { self.new.links ≡ self.old.links }
        ensures given { self.new.given ≡ self.old.given }
        ensures state { (state : RelayState) → Represents self.old state
            → Represents self.new (heard index true frame.now.from self.old.kept state) }
    {
        let behind = self.table.behind(target);
        let ways = chosen(&self.links, behind, index, frame.has_block(), rules.plain());
        self.table.learn(index as u8, frame.from());
        ways
    }
}
