// Phase 4: a clear was sent, and the station waits for its acknowledgement.
ghost use Rattle.std.specs.Prelude.{◌≡◌};
ghost use Rattle.plan_upload.specs.Operations.{clearing_view};
ghost use Rattle.plan_upload.specs.Station.{Clearing, with_operation, phase_step, phase_tick};

use super::Station;
use crate::Outcome;
use crate::operations::{Stage, Task};
use crate::uploads::LAST_IDLE_TICK;
use mav_names::Stream;
use plan_items::{MissionResult, PlanKind, PlanMsg};

impl Station {
    pub(crate) fn clearing_step(
        &mut self,
        drone: Stream,
        kind: Option<PlanKind>,
        idle: u8,
        msg: &PlanMsg,
    ) -> Option<PlanMsg>
        ensures station { let o = clearing_view drone kind idle in
            self.new ≡ (phase_step (with_operation self.old o) o Clearing msg.now).station }
        ensures answer { let o = clearing_view drone kind idle in
            result ≡ (phase_step (with_operation self.old o) o Clearing msg.now).answer }
    {
        match *msg {
            PlanMsg::Ack { code, .. } if code == MissionResult::ACCEPTED => {
                self.end(drone, Outcome::Cleared);
            }
            PlanMsg::Ack { code, .. }
                if code == MissionResult::UNSUPPORTED || code == MissionResult::DENIED => {
                self.end(drone, Outcome::Ended(code));
            }
            _ => self.stay(drone, Stage::Clearing { kind, idle }),
        }
        None
    }

    // After five idle ticks the two are synchronised again, and the clear is sent once more.
    pub(crate) fn clearing_tick(
        &mut self,
        drone: Stream,
        kind: Option<PlanKind>,
        idle: u8,
    ) -> Option<PlanMsg>
        ensures station { let o = clearing_view drone kind idle in
            self.new ≡ (phase_tick (with_operation self.old o) o Clearing).station }
        ensures answer { let o = clearing_view drone kind idle in
            result ≡ (phase_tick (with_operation self.old o) o Clearing).answer }
    {
        if idle >= LAST_IDLE_TICK {
            return self.resynchronise(drone, Task::Clear(kind), false);
        }
        self.stay(
            drone,
            Stage::Clearing {
                kind,
                idle: idle + 1,
            },
        );
        None
    }
}
