// Phase 5: the station waits for the count of a download.
ghost use Rattle.std.specs.Prelude.{◌≡◌};
ghost use Rattle.plan_upload.specs.Operations.{listing_view};
ghost use Rattle.plan_upload.specs.Station.{Listing_items, with_operation, phase_step, phase_tick, counted};

use super::Station;
use crate::Outcome;
use crate::addresses::{acknowledge, request};
use crate::operations::{GetTask, Getting, Stage, Task};
use crate::uploads::LAST_IDLE_TICK;
use mav_names::Stream;
use plan_items::{MissionResult, PlanMsg};

impl Station {
    // The drone has this many items.
    fn counted(&mut self, drone: Stream, get: GetTask, idle: u8, count: u16) -> Option<PlanMsg>
        ensures station { let o = listing_view drone get idle in
            self.new ≡ (counted (with_operation self.old o) o count).station }
        ensures answer { let o = listing_view drone get idle in
            result ≡ (counted (with_operation self.old o) o count).answer }
    {
        let GetTask { kind, mut items } = get;
        items.clear();
        if count == 0 {
            self.end(drone, Outcome::Got(items.into_plan()));
            return Some(acknowledge(drone, MissionResult::ACCEPTED, kind.number()));
        }
        if count > kind.limit() {
            self.end(drone, Outcome::Ended(MissionResult::NO_SPACE));
            return None;
        }
        let getting = Getting {
            kind,
            items,
            total: count,
            idle: 0,
        };
        self.stay(drone, Stage::Getting(getting));
        Some(request(drone, kind.number(), 0))
    }

    pub(crate) fn listing_step(
        &mut self,
        drone: Stream,
        get: GetTask,
        idle: u8,
        msg: &PlanMsg,
    ) -> Option<PlanMsg>
        ensures station { let o = listing_view drone get idle in
            self.new ≡ (phase_step (with_operation self.old o) o Listing_items msg.now).station }
        ensures answer { let o = listing_view drone get idle in
            result ≡ (phase_step (with_operation self.old o) o Listing_items msg.now).answer }
    {
        match *msg {
            PlanMsg::Count { count, kind, .. } if kind == get.kind.number() => {
                self.counted(drone, get, idle, count)
            }
            PlanMsg::Ack { code, .. }
                if code == MissionResult::UNSUPPORTED || code == MissionResult::DENIED => {
                self.end(drone, Outcome::Ended(code));
                None
            }
            _ => {
                self.stay(drone, Stage::Listing { get, idle });
                None
            }
        }
    }

    // After five idle ticks the two are synchronised again, and the list is asked for once more.
    pub(crate) fn listing_tick(&mut self, drone: Stream, get: GetTask, idle: u8) -> Option<PlanMsg>
        ensures station { let o = listing_view drone get idle in
            self.new ≡ (phase_tick (with_operation self.old o) o Listing_items).station }
        ensures answer { let o = listing_view drone get idle in
            result ≡ (phase_tick (with_operation self.old o) o Listing_items).answer }
    {
        if idle >= LAST_IDLE_TICK {
            return self.resynchronise(drone, Task::Get(get), false);
        }
        self.stay(
            drone,
            Stage::Listing {
                get,
                idle: idle + 1,
            },
        );
        None
    }
}
