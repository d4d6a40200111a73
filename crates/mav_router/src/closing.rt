// The ports after all threads have ended.
ghost use Rattle.std.specs.Prelude.{◌≡◌, ◌≤◌, ◌<◌, ◌⊎◌, ◌+◌, ℕ, length, map, slice_get, Some, None, IfSome, vec_len};
ghost use Rattle.std.specs.Prelude.{vec_capacity};
ghost use Rattle.mav_router.specs.declared.entries.SwitchFault.TheVariants.{NoMemory};
ghost use Rattle.mav_router.specs.declared.parts.Halt.TheVariants.{Done, Fault};
ghost use Rattle.mav_router.specs.Crews.{HasFault};
ghost use Rattle.mav_router.specs.Ends.{end_by};
ghost use Rattle.mav_router.specs.Threads.{HasWrittenLeft};

use crate::moves::put_last;
use crate::parts::{Halt, Side};
use crate::routing::end_of;
use crate::writing::write_entries;
use crate::{Journal, PortEnd, SwitchFault};
use mav_links::Link;

// Writes all that is left for a port, unless it failed or fails.
fn write_left<L: Link>(journal: &Journal, port: u8, side: &mut Side<L>)
    requires from { 1 ≤ port }
    requires to { port ≤ 8 }
    requires within { side.old.taken ≤ length journal.now }
    ensures { HasWrittenLeft L.state journal.now port side.old side.new }
{
    write_entries(
        journal,
        port,
        &mut side.taken,
        &mut side.room.batch,
        &mut side.lane,
        &mut side.link,
    );
}

/// Writes all that is left, in the order of the ports.
pub(crate) fn write_each_left<L: Link>(journal: &Journal, sides: &mut [Side<L>])
    requires few { length sides.old ≤ 8 }
    requires within { (k : ℕ) (side : _) → slice_get sides.old k ≡ Some side → side.taken ≤ length journal.now }
    ensures length { length sides.new ≡ length sides.old }
    ensures each { (k : ℕ) (b c : _) → slice_get sides.old k ≡ Some b → slice_get sides.new k ≡ Some c
        → HasWrittenLeft L.state journal.now (k + 1) b c }
{
    for at in 0..sides.len() {
        write_left(journal, at as u8 + 1, &mut sides[at]);
    }
}

/// The ends of the ports, for which there is room.
pub(crate) fn put_ends<L>(sides: &[Side<L>], turns: u64, ends: &mut Vec<PortEnd>)
    requires new { vec_len ends.old ≡ 0 }
    requires room { length sides.now ≤ vec_capacity ends.old }
    ensures { ends.new.items ≡ map (λ side. end_by side.lane turns) sides.now }
{
    for at in 0..sides.len() {
        put_last(ends, end_of(&sides[at].lane, turns));
    }
}

// Why the run stops, as far as it is known from a port without a fault of its own.
fn stopped_by(halt: Halt, found: Option<SwitchFault>) -> Option<SwitchFault>
    requires { IfSome found (λ why. why ≡ NoMemory) }
    ensures some { IfSome result (λ why. why ≡ NoMemory) }
    ensures before { result ≡ None → found ≡ None }
    ensures done { result ≡ None → (halt ≡ Done) ⊎ ((why : _) × (halt ≡ Fault why)) }
{
    match halt {
        Halt::Stopped => Some(SwitchFault::NoMemory),
        _ => found,
    }
}

/// The first fault in the order of the ports.
pub(crate) fn first_fault<L>(sides: &[Side<L>]) -> Option<SwitchFault>
    ensures none { result ≡ None → (k : ℕ) (side : _) → slice_get sides.now k ≡ Some side → side.halt ≡ Done }
    ensures some { IfSome result (λ why. (why ≡ NoMemory) ⊎ HasFault sides.now why) }
{
    let mut found = None;
    for at in 0..sides.len() {
        if let Halt::Fault(why) = sides[at].halt {
            return Some(why);
        }
        found = stopped_by(sides[at].halt, found);
    }
    found
}
