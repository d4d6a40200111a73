// Phase 3: an upload.
ghost use Rattle.std.specs.Prelude.{◌≡◌};
ghost use Rattle.plan_upload.specs.Operations.{sending_view};
ghost use Rattle.plan_upload.specs.Requests.{item_at, is_count_refusal};
ghost use Rattle.plan_upload.specs.Station.{Sending, with_operation, phase_step, phase_tick, item_asked, upload_acked};
ghost use Rattle.plan_upload.specs.Station.{refused};

use super::Station;
use crate::Outcome;
use crate::operations::{Stage, Task, UploadTask};
use crate::uploads::LAST_IDLE_TICK;
use mav_names::{Stream, node_of};
use plan_items::{MissionResult, PlanMsg};

// A drone that refuses a count replies with one of these codes before it asks for an item.
fn refuses_count(code: u8) -> bool
    ensures { result ≡ is_count_refusal code }
{
    code == MissionResult::UNSUPPORTED
        || (code == MissionResult::NO_SPACE
            || (code == MissionResult::INVALID || code == MissionResult::DENIED))
}

impl Station {
    // The drone asks for the item with this number.
    fn send_item(
        &mut self,
        drone: Stream,
        mut upload: UploadTask,
        idle: u8,
        seq: u16,
    ) -> Option<PlanMsg>
        ensures station { let o = sending_view drone upload idle in
            self.new ≡ (item_asked (with_operation self.old o) o seq (item_at upload seq)).station }
        ensures answer { let o = sending_view drone upload idle in
            result ≡ (item_asked (with_operation self.old o) o seq (item_at upload seq)).answer }
    {
        let Some(item) = upload.plan.get(usize::from(seq)) else {
            self.stay(drone, Stage::Sending { upload, idle });
            return None;
        };
        let kind = upload.kind.number();
        let is_final = usize::from(seq) + 1 == upload.plan.len();
        upload.asked = true;
        upload.final_sent = upload.final_sent || is_final;
        self.stay(drone, Stage::Sending { upload, idle: 0 });
        Some(PlanMsg::Item {
            to: node_of(drone),
            seq,
            kind,
            item,
        })
    }

    // The drone refused the upload: it ends, not installed, once the two are synchronised again.
    fn refuse(
        &mut self,
        drone: Stream,
        mut upload: UploadTask,
        idle: u8,
        code: u8,
    ) -> Option<PlanMsg>
        ensures station { let o = sending_view drone upload idle in
            self.new ≡ (refused (with_operation self.old o) o code).station }
        ensures answer { let o = sending_view drone upload idle in
            result ≡ (refused (with_operation self.old o) o code).answer }
    {
        upload.code = Some(code);
        self.resynchronise(drone, Task::Upload(upload), true)
    }

    // The drone acknowledges the upload with this code.
    fn upload_acked(
        &mut self,
        drone: Stream,
        upload: UploadTask,
        idle: u8,
        code: u8,
    ) -> Option<PlanMsg>
        ensures station { let o = sending_view drone upload idle in
            self.new ≡ (upload_acked (with_operation self.old o) o code).station }
        ensures answer { let o = sending_view drone upload idle in
            result ≡ (upload_acked (with_operation self.old o) o code).answer }
    {
        if upload.asked && code == MissionResult::ACCEPTED && upload.final_sent {
            self.end(drone, Outcome::Installed);
            return None;
        }
        let is_refusal = if upload.asked {
            code != MissionResult::ACCEPTED
        } else {
            refuses_count(code)
        };
        if is_refusal {
            return self.refuse(drone, upload, idle, code);
        }
        self.stay(drone, Stage::Sending { upload, idle });
        None
    }

    pub(crate) fn sending_step(
        &mut self,
        drone: Stream,
        upload: UploadTask,
        idle: u8,
        msg: &PlanMsg,
    ) -> Option<PlanMsg>
        ensures station { let o = sending_view drone upload idle in
            self.new ≡ (phase_step (with_operation self.old o) o Sending msg.now).station }
        ensures answer { let o = sending_view drone upload idle in
            result ≡ (phase_step (with_operation self.old o) o Sending msg.now).answer }
    {
        match *msg {
            PlanMsg::Request { seq, kind, .. } if kind == upload.kind.number() => {
                self.send_item(drone, upload, idle, seq)
            }
            PlanMsg::Ack { code, .. } => self.upload_acked(drone, upload, idle, code),
            _ => {
                self.stay(drone, Stage::Sending { upload, idle });
                None
            }
        }
    }

    // The count again, until an item is asked for. After five idle ticks the upload is given up.
    pub(crate) fn sending_tick(
        &mut self,
        drone: Stream,
        upload: UploadTask,
        idle: u8,
    ) -> Option<PlanMsg>
        ensures station { let o = sending_view drone upload idle in
            self.new ≡ (phase_tick (with_operation self.old o) o Sending).station }
        ensures answer { let o = sending_view drone upload idle in
            result ≡ (phase_tick (with_operation self.old o) o Sending).answer }
    {
        if idle >= LAST_IDLE_TICK {
            return self.resynchronise(drone, Task::Upload(upload), true);
        }
        let again = PlanMsg::Count {
            to: node_of(drone),
            count: upload.plan.len() as u16,
            kind: upload.kind.number(),
        };
        let asked = upload.asked;
        self.stay(
            drone,
            Stage::Sending {
                upload,
                idle: idle + 1,
            },
        );
        if asked { None } else { Some(again) }
    }
}
