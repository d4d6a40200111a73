// Phase 1: a PING was sent, and the station waits for its reply.
ghost use Rattle.std.specs.Prelude.{◌≡◌};
ghost use Rattle.plan_upload.specs.Operations.{pinging_view};
ghost use Rattle.plan_upload.specs.Replies.{is_ping_reply};
ghost use Rattle.plan_upload.specs.Station.{Pinging, with_operation, phase_step, phase_tick, is_number};

use super::Station;
use crate::addresses::acknowledge;
use crate::operations::Task;
use mav_names::{Stream, everyone};
use plan_items::{MissionResult, PlanMsg};

fn is_expected(number: Option<u32>, seq: u32) -> bool
    ensures { result ≡ is_number number seq }
{
    match number {
        None => false,
        Some(number) => number == seq,
    }
}

impl Station {
    // A reply to this attempt's PING.
    fn is_reply(&self, number: Option<u32>, msg: &PlanMsg) -> bool
        ensures { result ≡ is_ping_reply self.now.boot number msg.now }
    {
        match *msg {
            PlanMsg::Ping { usec, seq, .. } => usec == self.boot && is_expected(number, seq),
            _ => false,
        }
    }

    pub(crate) fn pinging_step(
        &mut self,
        drone: Stream,
        task: Task,
        terminating: bool,
        number: Option<u32>,
        msg: &PlanMsg,
    ) -> Option<PlanMsg>
        ensures station { let o = pinging_view drone task terminating number in
            self.new ≡ (phase_step (with_operation self.old o) o Pinging msg.now).station }
        ensures answer { let o = pinging_view drone task terminating number in
            result ≡ (phase_step (with_operation self.old o) o Pinging msg.now).answer }
    {
        if !self.is_reply(number, msg) {
            self.stay_pinging(drone, task, terminating, number);
            return None;
        }
        let number = number?;
        let kind = task.kind();
        self.stay_cancelling(drone, task, terminating, number);
        Some(acknowledge(drone, MissionResult::OPERATION_CANCELLED, kind))
    }

    // The same PING again.
    pub(crate) fn pinging_tick(
        &mut self,
        drone: Stream,
        task: Task,
        terminating: bool,
        number: Option<u32>,
    ) -> Option<PlanMsg>
        ensures station { let o = pinging_view drone task terminating number in
            self.new ≡ (phase_tick (with_operation self.old o) o Pinging).station }
        ensures answer { let o = pinging_view drone task terminating number in
            result ≡ (phase_tick (with_operation self.old o) o Pinging).answer }
    {
        self.stay_pinging(drone, task, terminating, number);
        let seq = number?;
        Some(PlanMsg::Ping {
            to: everyone(),
            usec: self.boot,
            seq,
        })
    }
}
