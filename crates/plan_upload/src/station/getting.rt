// Phase 6: a download whose items come.
ghost use Rattle.std.specs.Prelude.{◌≡◌, [], ◌∷◌, ◌++◌};
ghost use Rattle.plan_upload.specs.Operations.{getting_view};
ghost use Rattle.plan_upload.specs.Station.{Getting, with_operation, phase_step, phase_tick, item_got};

use super::Station;
use crate::Outcome;
use crate::addresses::{acknowledge, request};
use crate::operations::{Getting as Download, Stage, Task};
use crate::uploads::LAST_IDLE_TICK;
use mav_names::Stream;
use plan_items::{Item, MissionResult, PlanMsg};

impl Station {
    // The next item came.
    fn item_came(&mut self, drone: Stream, get: Download, item: Item) -> Option<PlanMsg>
        ensures station { let o = getting_view drone get in
            self.new ≡ (item_got (with_operation self.old o) o (get.items ++ item ∷ [])).station }
        ensures answer { let o = getting_view drone get in
            result ≡ (item_got (with_operation self.old o) o (get.items ++ item ∷ [])).answer }
    {
        let Download {
            kind,
            mut items,
            total,
            ..
        } = get;
        items.put(item);
        let next = items.len() as u16;
        if next < total {
            let getting = Download {
                kind,
                items,
                total,
                idle: 0,
            };
            self.stay(drone, Stage::Getting(getting));
            return Some(request(drone, kind.number(), next));
        }
        self.end(drone, Outcome::Got(items.into_plan()));
        Some(acknowledge(drone, MissionResult::ACCEPTED, kind.number()))
    }

    pub(crate) fn getting_step(
        &mut self,
        drone: Stream,
        get: Download,
        msg: &PlanMsg,
    ) -> Option<PlanMsg>
        ensures station { let o = getting_view drone get in
            self.new ≡ (phase_step (with_operation self.old o) o Getting msg.now).station }
        ensures answer { let o = getting_view drone get in
            result ≡ (phase_step (with_operation self.old o) o Getting msg.now).answer }
    {
        match *msg {
            PlanMsg::Item {
                seq,
                kind,
                item,
                ..
            } if kind == get.kind.number() && usize::from(seq) == get.items.len() => {
                self.item_came(drone, get, item)
            }
            PlanMsg::Ack { code, .. } if code != MissionResult::ACCEPTED => {
                self.end(drone, Outcome::Ended(code));
                None
            }
            _ => {
                self.stay(drone, Stage::Getting(get));
                None
            }
        }
    }

    // The request again. After five idle ticks the two are synchronised again, and the download starts again.
    pub(crate) fn getting_tick(&mut self, drone: Stream, mut get: Download) -> Option<PlanMsg>
        ensures station { let o = getting_view drone get in
            self.new ≡ (phase_tick (with_operation self.old o) o Getting).station }
        ensures answer { let o = getting_view drone get in
            result ≡ (phase_tick (with_operation self.old o) o Getting).answer }
    {
        if get.idle >= LAST_IDLE_TICK {
            return self.resynchronise(drone, Task::Get(get.into_task()), false);
        }
        get.idle += 1;
        let again = request(drone, get.kind.number(), get.items.len() as u16);
        self.stay(drone, Stage::Getting(get));
        Some(again)
    }
}
