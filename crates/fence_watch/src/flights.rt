// Flights against a fence.
ghost use Rattle.std.specs.Prelude.{◌≡◌, IfOk};
ghost use Rattle.plan_items.specs.Plans.{items_of};
ghost use Rattle.fence_watch.specs.Judging.{started as started_at, flown};

use crate::{NoMemory, Point, Watch};
use drone_sim::Sim;
use plan_items::{Action, Plan};
use std::alloc::Global;

/// After this tick, counted from 1, the drone was at a place that the fence doesn't allow.
#[derive(Clone, Copy)]
pub struct Breach {
    pub tick: u32,
    pub at: Point,
}

// A drone at its home that was armed and has started its mission.
fn started(home: Point) -> Sim
    ensures { result ≡ started_at home }
{
    let mut sim = Sim::new(home.x, home.y);
    sim.act(Action::Arm);
    sim.act(Action::Start);
    sim
}

/// Flies the mission from `home` for so many ticks, at most `step` units a tick, and returns each tick after which the
/// drone is where the fence doesn't allow it. What lies between two ticks isn't looked at.
pub fn fly(
    alloc: Global,
    watch: &Watch,
    mission: &Plan,
    home: Point,
    step: u32,
    ticks: u32,
) -> Result<Vec<Breach>, NoMemory>
    ensures { IfOk result (λ breaches. breaches.items ≡ flown watch.now (items_of mission.now) home step ticks) }
{
    let mut breaches = Vec::new(alloc);
    let mut sim = started(home);
    for tick in 0..ticks {
        sim.tick(mission, step);
        let at = sim.position();
        if !watch.allowed(at) {
            breaches.push(Breach { tick: tick + 1, at })?;
        }
    }
    Ok(breaches)
}
