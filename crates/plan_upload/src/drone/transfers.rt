// What a drone does at each message that is for it.
ghost use Rattle.std.specs.Prelude.{◌≡◌, ◌<◌, ◌≤◌, Some, IsTrue, true};
ghost use Rattle.plan_items.specs.Kinds.{number_of, limit_of};
ghost use Rattle.plan_upload.specs.Changes.{change_by, install_of};
ghost use Rattle.plan_upload.specs.Drone.{closed, opened, count_comes, item_comes, ack_comes, cancel_comes};
ghost use Rattle.plan_upload.specs.Drone.{clear_comes, list_comes, request_comes, is_own};
ghost use Rattle.plan_upload.specs.Gathering.{acked_of, is_sound_with, installed_by, kind_in};
ghost use Rattle.plan_upload.specs.Room.{has_place};
ghost use Rattle.plan_upload.specs.declared.changes.Change.TheVariants.{Same};

use super::Drone;
use crate::addresses::{acknowledge, request};
use crate::changes::{Change, DroneStep, installing, unchanging};
use crate::verdicts::Verdict;
use mav_names::{Stream, node_of};
use plan_items::{Item, MissionResult, PlanKind, PlanMsg};

impl Drone {
    // Drops what the stream's own upload gathered.
    pub(super) fn close(&mut self, from: Stream)
        ensures { self.new ≡ closed self.old from }
    {
        if self.upload.is_of(from) {
            self.upload.close();
            self.results.set(from, false);
        }
    }

    fn open_upload(&mut self, from: Stream, kind: PlanKind, count: u16)
        requires some { 0 < count }
        requires fits { count ≤ limit_of (number_of kind) }
        requires place { IsTrue (has_place self.old.results from) }
        ensures { self.new ≡ opened self.old from (number_of kind) count }
    {
        self.upload.open(from, kind, count);
        self.results.set(from, false);
    }

    pub(crate) fn count(&mut self, from: Stream, count: u16, kind: u8) -> PlanMsg
        ensures drone { self.new ≡ (count_comes self.old from count kind).drone }
        ensures answer { Some result ≡ (count_comes self.old from count kind).answer }
    {
        let Some(known) = PlanKind::of(kind) else {
            self.close(from);
            return acknowledge(from, MissionResult::UNSUPPORTED, kind);
        };
        if self.upload.is_of_other(from) {
            return acknowledge(from, MissionResult::DENIED, kind);
        }
        if count == 0 {
            self.close(from);
            return acknowledge(from, MissionResult::INVALID, kind);
        }
        if count > known.limit() {
            self.close(from);
            return acknowledge(from, MissionResult::NO_SPACE, kind);
        }
        if !self.results.has_place(from) {
            return acknowledge(from, MissionResult::DENIED, kind);
        }
        self.open_upload(from, known, count);
        request(from, kind, 0)
    }

    // The gathered items and this last one become the plan of their kind.
    fn install(&mut self, from: Stream, item: Item) -> DroneStep
        requires own { IsTrue (is_own self.old.upload from) }
        requires sound { IsTrue (is_sound_with self.old.upload item) }
        ensures drone { self.new ≡ installed_by self.old from self.old.upload item }
        ensures answer { result.answer ≡ acked_of self.old.upload from 0 }
        ensures change { result.change ≡ install_of (kind_in self.old.upload) }
    {
        let answer = self.upload.acked(from, MissionResult::ACCEPTED);
        let change = installing(self.upload.kind());
        self.upload.finish(item, &mut self.plans);
        self.results.set(from, true);
        self.installs = self.installs.saturating_add(1);
        DroneStep { answer, change }
    }

    // The upload ends with this result code, and nothing is installed.
    fn refuse(&mut self, from: Stream, code: u8) -> DroneStep
        ensures drone { self.new ≡ closed self.old from }
        ensures answer { result.answer ≡ acked_of self.old.upload from code }
        ensures change { result.change ≡ Same }
    {
        let answer = self.upload.acked(from, code);
        self.close(from);
        unchanging(answer)
    }

    pub(crate) fn item(
        &mut self,
        keeps: bool,
        from: Stream,
        seq: u16,
        kind: u8,
        item: &Item,
    ) -> DroneStep
        ensures drone { self.new ≡ (item_comes keeps self.old from self.old.upload seq kind item.now).drone }
        ensures answer { result.answer ≡ (item_comes keeps self.old from self.old.upload seq kind item.now).answer }
        ensures change { result.change ≡ change_by
            (item_comes keeps self.old from self.old.upload seq kind item.now).event }
    {
        match self.upload.judge(from, seq, kind, item) {
            Verdict::NotOwn => unchanging(None),
            Verdict::AskAgain => unchanging(self.upload.asked(from)),
            Verdict::Refuse(code) => self.refuse(from, code),
            Verdict::Gather => {
                self.upload.gather(*item);
                unchanging(self.upload.asked(from))
            }
            Verdict::Install if keeps => self.install(from, *item),
            Verdict::Install => self.refuse(from, MissionResult::ERROR),
        }
    }

    fn cancel(&mut self, from: Stream, kind: u8) -> PlanMsg
        ensures drone { self.new ≡ (cancel_comes self.old from kind).drone }
        ensures answer { Some result ≡ (cancel_comes self.old from kind).answer }
    {
        self.download.close_own(from);
        self.close(from);
        let code = match self.results.of(from) {
            Some(true) => MissionResult::ACCEPTED,
            Some(false) => MissionResult::OPERATION_CANCELLED,
            None => MissionResult::ERROR,
        };
        acknowledge(from, code, kind)
    }

    pub(crate) fn ack(&mut self, from: Stream, code: u8, kind: u8) -> Option<PlanMsg>
        ensures drone { self.new ≡ (ack_comes self.old from code kind).drone }
        ensures answer { result ≡ (ack_comes self.old from code kind).answer }
    {
        if code == MissionResult::OPERATION_CANCELLED {
            return Some(self.cancel(from, kind));
        }
        self.download.close_own(from);
        None
    }

    pub(crate) fn clear(&mut self, keeps: bool, from: Stream, kind: u8) -> DroneStep
        ensures drone { self.new ≡ (clear_comes keeps self.old from kind).drone }
        ensures answer { result.answer ≡ (clear_comes keeps self.old from kind).answer }
        ensures change { result.change ≡ change_by (clear_comes keeps self.old from kind).event }
    {
        let known = PlanKind::of(kind);
        if known.is_none() && kind != PlanKind::ALL {
            return unchanging(Some(acknowledge(from, MissionResult::UNSUPPORTED, kind)));
        }
        if self.upload.is_of_other(from) || !keeps {
            return unchanging(Some(acknowledge(from, MissionResult::DENIED, kind)));
        }
        self.close(from);
        self.plans.empty(known);
        DroneStep {
            answer: Some(acknowledge(from, MissionResult::ACCEPTED, kind)),
            change: Change::Empty(known),
        }
    }

    pub(crate) fn list(&mut self, from: Stream, kind: u8) -> PlanMsg
        ensures drone { self.new ≡ (list_comes self.old from kind).drone }
        ensures answer { Some result ≡ (list_comes self.old from kind).answer }
    {
        let Some(known) = PlanKind::of(kind) else {
            return acknowledge(from, MissionResult::UNSUPPORTED, kind);
        };
        if self.download.is_of_other(from) {
            return acknowledge(from, MissionResult::DENIED, kind);
        }
        let plan = self.plans.of(known);
        self.download.copy(from, known, plan);
        PlanMsg::Count {
            to: node_of(from),
            count: plan.len() as u16,
            kind,
        }
    }

    pub(crate) fn request(&mut self, from: Stream, seq: u16, kind: u8) -> PlanMsg
        ensures drone { self.new ≡ (request_comes self.old from self.old.download seq kind).drone }
        ensures answer { Some result ≡ (request_comes self.old from self.old.download seq kind).answer }
    {
        self.download.give(from, seq, kind)
    }

    pub(crate) fn change_by_item(&self, from: Stream, seq: u16, kind: u8, item: &Item) -> Change
        ensures { result ≡ change_by (item_comes true self.now from self.now.upload seq kind item.now).event }
    {
        match (self.upload.judge(from, seq, kind, item), self.upload.kind()) {
            (Verdict::Install, Some(kind)) => Change::Install(kind),
            _ => Change::Same,
        }
    }

    pub(crate) fn change_by_clear(&self, from: Stream, kind: u8) -> Change
        ensures { result ≡ change_by (clear_comes true self.now from kind).event }
    {
        let known = PlanKind::of(kind);
        if known.is_none() && kind != PlanKind::ALL || self.upload.is_of_other(from) {
            return Change::Same;
        }
        Change::Empty(known)
    }
}
