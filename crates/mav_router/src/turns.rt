// What a thread does in its turn.
ghost use Rattle.std.specs.Prelude.{◌≡◌, ◌≤◌, length, All, IfErr};
ghost use mathlib.Core.List.{IsPrefix};
ghost use Rattle.mav_router.specs.Found.{IsJudged, Takes, packets_of};
ghost use Rattle.mav_router.specs.Pages.{IsWindow};
ghost use Rattle.mav_router.specs.History.{entries_in};
ghost use Rattle.mav_router.specs.Parts.{IsSeated};
ghost use Rattle.mav_router.specs.Faults.{IsSwitchFault};

use crate::crew::Crew;
use crate::found::FoundFrames;
use crate::shared::SharedPages;
use crate::{Switch, SwitchFault};
use std::sync::Wait;
use turnstile::TurnSeat;

/// Has the switch admit in a turn the frames that were found at the port.
pub(crate) fn admit_found<'a, R: Wait>(
    rt: &R,
    crew: &Crew<'a, '_>,
    seat: &mut TurnSeat<Switch<'a>>,
    port: u8,
    found: &mut FoundFrames,
) -> Result<(), SwitchFault>
    requires seated { IsSeated crew.now.turn.now crew.now.rules.now port seat.old }
    requires from { 1 ≤ port }
    requires to { port ≤ crew.now.rules.now.ports }
    requires judged { All (IsJudged crew.now.rules.now) found.old }
    ensures seated { IsSeated crew.now.turn.now crew.now.rules.now port seat.new }
    ensures begins { IsPrefix (entries_in seat.old.seen) (entries_in seat.new.seen) }
    ensures takes { Takes result port (entries_in seat.old.own) (entries_in seat.new.own) (packets_of found.old) }
    ensures fault { IfErr result (λ fault. IsSwitchFault fault (entries_in seat.new.seen)) }
{
    let mut held = crew.turn.enter(rt, seat);
    let admitted = held.value().admit_found(port, found);
    crew.turn.leave(seat, held);
    admitted
}

/// Shares in a turn the pages of the journal that have entries from an index on, as many as there is room for, and
/// returns whether no more are sealed.
pub(crate) fn share_waiting<'a, R: Wait>(
    rt: &R,
    crew: &Crew<'a, '_>,
    seat: &mut TurnSeat<Switch<'a>>,
    port: u8,
    taken: usize,
    shared: &mut SharedPages,
) -> bool
    requires seated { IsSeated crew.now.turn.now crew.now.rules.now port seat.old }
    requires within { taken ≤ length (entries_in seat.old.seen) }
    ensures seated { IsSeated crew.now.turn.now crew.now.rules.now port seat.new }
    ensures begins { IsPrefix (entries_in seat.old.seen) (entries_in seat.new.seen) }
    ensures own { seat.new.own ≡ seat.old.own }
    ensures window { IsWindow (entries_in seat.new.seen) taken shared.new }
{
    let _ = port;
    let mut held = crew.turn.enter(rt, seat);
    let all = held.value().journal().share(taken, shared);
    crew.turn.leave(seat, held);
    all
}
