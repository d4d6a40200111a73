// Phase 2: a cancel was sent, and the station waits for the reply.
ghost use Rattle.std.specs.Prelude.{◌≡◌};
ghost use Rattle.plan_upload.specs.Operations.{cancelling_view};
ghost use Rattle.plan_upload.specs.Station.{Cancelling, with_operation, phase_step, synchronises};

use super::Station;
use crate::operations::Task;
use mav_names::Stream;
use plan_items::{MissionResult, PlanMsg};

impl Station {
    // The drone replied to the cancel with this code.
    fn answer_came(
        &mut self,
        drone: Stream,
        task: Task,
        terminating: bool,
        number: u32,
        code: u8,
    ) -> Option<PlanMsg>
        ensures station { let o = cancelling_view drone task terminating number in
            self.new ≡ (synchronises (with_operation self.old o) o code).station }
        ensures answer { let o = cancelling_view drone task terminating number in
            result ≡ (synchronises (with_operation self.old o) o code).answer }
    {
        if terminating {
            self.end(drone, task.outcome(code));
            return None;
        }
        self.synchronise(drone);
        Some(self.start(drone, task))
    }

    pub(crate) fn cancelling_step(
        &mut self,
        drone: Stream,
        task: Task,
        terminating: bool,
        number: u32,
        msg: &PlanMsg,
    ) -> Option<PlanMsg>
        ensures station { let o = cancelling_view drone task terminating number in
            self.new ≡ (phase_step (with_operation self.old o) o Cancelling msg.now).station }
        ensures answer { let o = cancelling_view drone task terminating number in
            result ≡ (phase_step (with_operation self.old o) o Cancelling msg.now).answer }
    {
        if let PlanMsg::Ack { code, .. } = *msg {
            if code == MissionResult::ACCEPTED
                || code == MissionResult::ERROR
                || code == MissionResult::OPERATION_CANCELLED
            {
                return self.answer_came(drone, task, terminating, number, code);
            }
        }
        self.stay_cancelling(drone, task, terminating, number);
        None
    }
}
