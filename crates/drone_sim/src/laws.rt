// What holds of every drone, by the definitions alone.
ghost use Rattle.std.specs.Prelude.{◌≡◌, ◌⊎◌, ◌+◌, ◌*◌, ◌<◌, ◌≤◌, ℕ, false, List, Some, None, max};
ghost use Rattle.plan_items.specs.declared.items.Item.{Item};
ghost use Rattle.plan_items.specs.declared.actions.Action.{Action};
ghost use Rattle.drone_sim.specs.declared.courses.Course.TheVariants.{Disarmed, Resting, Flying, Returning};
ghost use Rattle.drone_sim.specs.declared.points.Point.{Point};
ghost use Rattle.drone_sim.specs.Sim.{SimState, new_sim, armed, acts, changes, sim_tick};
ghost use Rattle.drone_sim.specs.Laws.{target_now, IsOnItsWay, PointInRange, LocationsInRange, SimInRange};
ghost use Rattle.drone_sim.specs.Laws.{SimTickInRange, ticks, AreWithin};

/// In a tick each coordinate goes from where it was towards the target's, and never past it; a drone without a target
/// doesn't move.
pub fn never_past_its_target()
    ensures moves { (s : SimState) → (items : List Item) → (step : ℕ) → (target : Point)
        → target_now s items ≡ Some target
        → IsOnItsWay s.position target (sim_tick s items step).sim.position }
    ensures stays { (s : SimState) → (items : List Item) → (step : ℕ) → target_now s items ≡ None
        → (sim_tick s items step).sim.position ≡ s.position }
{}

/// A disarmed drone does nothing in a tick, and stays disarmed until it is armed. No drone's home moves.
pub fn disarmed_stays()
    ensures tick { (s : SimState) → (items : List Item) → (step : ℕ) → armed s ≡ false
        → (sim_tick s items step).sim ≡ s }
    ensures start { (s : SimState) → armed s ≡ false → acts s Action.Start ≡ s }
    ensures go_home { (s : SimState) → armed s ≡ false → acts s Action.Return ≡ s }
    ensures change { (s : SimState) → armed (changes s) ≡ armed s }
    ensures home { (s : SimState) → (items : List Item) → (step : ℕ) → (sim_tick s items step).sim.home ≡ s.home }
{}

/// The count of pictures never falls, and rises by at most one in a tick, in which a picture was taken.
pub fn captures_rise_by_one()
    ensures never_falls { (s : SimState) → (items : List Item) → (step : ℕ) → SimInRange s
        → s.captures ≤ (sim_tick s items step).sim.captures }
    ensures at_most_one { (s : SimState) → (items : List Item) → (step : ℕ)
        → (sim_tick s items step).sim.captures ≤ s.captures + 1 }
    ensures unless { (s : SimState) → (items : List Item) → (step : ℕ) → (sim_tick s items step).captured ≡ false
        → (sim_tick s items step).sim.captures ≡ s.captures }
{}

/// A drone that flies its mission passes over no item: it stays with one until it has reached it, and then goes on to
/// the next or ends its flight.
pub fn every_item_in_turn()
    ensures waits { (s : SimState) → (items : List Item) → (step number : ℕ) → s.course ≡ Flying number
        → (sim_tick s items step).reached ≡ None → (sim_tick s items step).sim.course ≡ s.course }
    ensures goes_on { (s : SimState) → (items : List Item) → (step number : ℕ)
        → (sim_tick s items step).reached ≡ Some number → (s.course ≡ Flying number)
        × (((sim_tick s items step).sim.course ≡ Flying (number + 1))
        ⊎ (((sim_tick s items step).sim.course ≡ Resting) ⊎ ((sim_tick s items step).sim.course ≡ Disarmed))) }
{}

/// What a drone keeps, and what a tick over a mission with locations in range brings, fits the fields of messages.
pub fn stays_in_range()
    ensures new { (home : Point) → PointInRange home → SimInRange (new_sim home) }
    ensures act { (s : SimState) → (action : Action) → SimInRange s → SimInRange (acts s action) }
    ensures change { (s : SimState) → SimInRange s → SimInRange (changes s) }
    ensures tick { (s : SimState) → (items : List Item) → (step : ℕ) → SimInRange s → LocationsInRange items
        → SimTickInRange (sim_tick s items step) }
{}

/// A drone that returns is at its home, disarmed, after as many ticks as its steps make the longer of its two ways.
pub fn home_at_last()
    ensures { (s : SimState) → (items : List Item) → (step n : ℕ) → s.course ≡ Returning → 0 < n
        → AreWithin (n * max step 1) s.position.x s.home.x → AreWithin (n * max step 1) s.position.y s.home.y
        → ticks n s items step ≡ record s { position = s.home; course = Disarmed } }
{}
