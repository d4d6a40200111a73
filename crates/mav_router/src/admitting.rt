// Frames that are admitted one after another.
ghost use Rattle.std.specs.Prelude.{◌≡◌, ◌≤◌, ◌++◌, List, All, length, map, take, true, vec_len, vec_capacity};
ghost use Rattle.mav_sign.specs.Streams.{listed};
ghost use Rattle.mav_sign.specs.History.{Entry as Tried, is_admitted};
ghost use Rattle.mav_sign.specs.Kept.{Represents};
ghost use Rattle.mav_sign.specs.Signing.{verified};
ghost use Rattle.link_table.specs.Routing.{Learned, ways_of};
ghost use Rattle.link_table.specs.Table.{Represents as StandsFor};
ghost use Rattle.mav_router.specs.Journal.{verdict_on, tried_as, is_unsigned, ways_by, learned_at};
ghost use Rattle.mav_router.specs.Admitting.{AdmitsThese, IsVerdictBy, Judges};
ghost use Rattle.mav_router.specs.Found.{IsJudged, packets_of};
ghost use Rattle.mav_router.specs.Spans.{AreFound, AreHeld, entries_of, judged_of};

use crate::RouterRules;
use crate::entries::Outcome;
use crate::found::{FoundFrame, item_at};
use crate::judging::Judgement;
use crate::moves::put_last;
use crate::page::Head;
use crate::spans::frame_in;
use link_table::{LinkTable, Ways};
use mav_frame::RawFrame;
use mav_names::Name;
use mav_sign::{Admit, Key, Stamps};

/// The verdict on a frame at a port that is open or not.
pub fn verdict(
    stamps: &mut Stamps,
    key: &Key,
    is_open: bool,
    frame: &RawFrame<'_>,
    verifies: bool,
) -> Admit
    requires { verifies ≡ verified key.now frame.now frame.now.block }
    ensures verdict { (history : List Tried) → Represents stamps.old history
        → result ≡ verdict_on key.now is_open history frame.now }
    ensures history { (history : List Tried) → Represents stamps.old history
        → Represents stamps.new (history ++ listed (tried_as frame.now result)) }
    ensures kept { IsVerdictBy key.now is_open stamps.old stamps.new frame.now result }
{
    if frame.has_block() {
        return stamps.admit_judged(key, frame, verifies);
    }
    if is_open {
        Admit::Admitted
    } else {
        Admit::Unsigned
    }
}

// The ports that an admitted frame goes to, which teaches where its sender is.
fn route(table: &mut LinkTable, plain: Ways, port: u8, target: Name, frame: &RawFrame<'_>) -> Ways
    requires from { 1 ≤ port }
    requires to { port ≤ table.old.ports }
    ensures ports { table.new.ports ≡ table.old.ports }
    ensures ways { (learned : List Learned) → StandsFor table.old learned
        → result ≡ ways_by true (is_unsigned frame.now) plain (ways_of table.old.ports learned port target) }
    ensures learned { (learned : List Learned) → StandsFor table.old learned
        → StandsFor table.new (learned ++ listed (learned_at true port frame.now.from)) }
{
    let ways = table.ways(port, target);
    table.learn(port, frame.from());
    if frame.has_block() {
        ways
    } else {
        ways.common(plain)
    }
}

// The ports that a frame goes to by its verdict.
fn route_by(
    table: &mut LinkTable,
    admit: Admit,
    plain: Ways,
    port: u8,
    target: Name,
    frame: &RawFrame<'_>,
) -> Ways
    requires from { 1 ≤ port }
    requires to { port ≤ table.old.ports }
    ensures ports { table.new.ports ≡ table.old.ports }
    ensures ways { (learned : List Learned) → StandsFor table.old learned
        → result ≡ ways_by (is_admitted admit) (is_unsigned frame.now) plain
        (ways_of table.old.ports learned port target) }
    ensures learned { (learned : List Learned) → StandsFor table.old learned
        → StandsFor table.new (learned ++ listed (learned_at (is_admitted admit) port frame.now.from)) }
{
    if let Admit::Admitted = admit {
        route(table, plain, port, target, frame)
    } else {
        Ways::none()
    }
}

// What becomes of a frame that came in at a port and was judged by these rules.
fn admit_frame(
    rules: &RouterRules<'_>,
    stamps: &mut Stamps,
    table: &mut LinkTable,
    port: u8,
    frame: &RawFrame<'_>,
    judgement: Judgement,
) -> Outcome
    requires from { 1 ≤ port }
    requires to { port ≤ table.old.ports }
    requires few { port ≤ 8 }
    requires verifies { judgement.verifies ≡ verified rules.now.key frame.now frame.now.block }
    ensures { Judges rules.now port frame.now judgement.target stamps.old stamps.new table.old table.new result }
{
    let plain = rules.plain();
    let is_open = plain.has(port);
    let admit = verdict(stamps, rules.key(), is_open, frame, judgement.verifies);
    let ways = route_by(table, admit, plain, port, judgement.target, frame);
    Outcome { port, admit, ways }
}

/// Puts the heads of so many frames that came in at a port and were found in these bytes, in their order.
pub(crate) fn admit_frames(
    bytes: &[u8],
    found: &[FoundFrame],
    count: usize,
    heads: &mut Vec<Head>,
    rules: &RouterRules<'_>,
    stamps: &mut Stamps,
    table: &mut LinkTable,
    port: u8,
)
    requires from { 1 ≤ port }
    requires to { port ≤ table.old.ports }
    requires few { port ≤ 8 }
    requires within { count ≤ length found.now }
    requires held { AreFound bytes.now found.now }
    requires judged { All (IsJudged rules.now) (map (judged_of bytes.now) found.now) }
    requires new { vec_len heads.old ≡ 0 }
    requires room { count ≤ vec_capacity heads.old }
    ensures held { AreHeld bytes.now heads.new.items }
    ensures admits { AdmitsThese rules.now port
        (take count (packets_of (map (judged_of bytes.now) found.now))) stamps.old stamps.new table.old table.new
        (entries_of bytes.now heads.new.items) }
{
    for at in 0..count {
        let one = item_at(found, at);
        let frame = frame_in(bytes, one.span);
        let outcome = admit_frame(rules, stamps, table, port, &frame, one.judgement);
        put_last(
            heads,
            Head {
                span: one.span,
                outcome,
            },
        );
    }
}
