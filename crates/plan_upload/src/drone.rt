// The drone's side of the mission protocol.
ghost use Rattle.std.specs.Prelude.{◌≡◌, IfOk};
ghost use Rattle.plan_items.specs.Kinds.{number_of};
ghost use Rattle.plan_items.specs.Plans.{items_of};
ghost use Rattle.plan_upload.specs.Changes.{change_by};
ghost use Rattle.plan_upload.specs.Drone.{fresh_drone, drone_step, drone_tick};
ghost use Rattle.plan_upload.specs.Gathering.{stream_of};
ghost use Rattle.plan_upload.specs.Heard.{is_heard};
ghost use Rattle.plan_upload.specs.Plans.{no_plans, plan_at, IsHoldable};

mod keeping;
mod transfers;

use crate::NoMemory;
use crate::addresses::{is_for_autopilot, receiver};
use crate::changes::{DroneStep, unchanging};
use crate::downloads::DownloadSlot;
use crate::held::HeldPlans;
use crate::results::Results;
use crate::uploads::UploadSlot;
use crate::verdicts::Verdict;
use mav_names::{Stream, everyone, is_same_name, node_of};
use plan_items::{Plan, PlanKind, PlanMsg};
use std::alloc::Global;
use std::marker::Model;

/// A drone's plans and the transfers that change or read them. Messages come from streams, since
/// signing distinguishes streams.
#[derive(Drop)]
pub struct Drone {
    sys: u8,
    plans: HeldPlans,
    upload: UploadSlot,
    download: DownloadSlot,
    results: Results,
    installs: u64,
}

impl Model for Drone {
    ghost use Rattle.plan_upload.specs.Drone.{DroneState};
    ghost use Rattle.plan_upload.specs.Heard.{HasResult};

    ghost Value = { DroneState };

    ghost use Rattle.plan_upload.specs.DroneView.{drone_view};

    ghost view = { drone_view };

    ghost invariant = { λ d. HasResult d.upload d.results };
}

impl Drone {
    /// Allocates all the memory that the drone will need.
    pub fn new(alloc: Global, sys: u8) -> Result<Drone, NoMemory>
        ensures { IfOk result (λ d. d ≡ fresh_drone sys no_plans) }
    {
        let results = Results::new(alloc)?;
        let upload = UploadSlot::new(alloc)?;
        let download = DownloadSlot::new(alloc)?;
        let plans = HeldPlans::new(alloc)?;
        Ok(Drone {
            sys,
            plans,
            upload,
            download,
            results,
            installs: 0,
        })
    }

    /// The drone's system id; its component id is 1.
    pub fn sys(&self) -> u8
        ensures { result ≡ self.now.sys }
    {
        self.sys
    }

    /// The plan of a kind, which is empty or valid.
    pub fn plan(&self, kind: PlanKind) -> &Plan
        ensures items { items_of result.now ≡ plan_at self.now.plans (number_of kind) }
        ensures holdable { IsHoldable (number_of kind) (items_of result.now) }
    {
        self.plans.of(kind)
    }

    /// The stream whose upload is open.
    pub fn open(&self) -> Option<Stream>
        ensures { result ≡ stream_of self.now.upload }
    {
        self.upload.stream()
    }

    /// How many plans were installed since the start.
    pub fn installs(&self) -> u64
        ensures { result ≡ self.now.installs }
    {
        self.installs
    }

    pub(crate) fn hears(&self, msg: &PlanMsg) -> bool
        ensures { result ≡ is_heard self.now.sys msg.now }
    {
        match *msg {
            PlanMsg::Ping { to, .. } => is_same_name(to, everyone()),
            _ => is_for_autopilot(self.sys, receiver(msg)),
        }
    }

    /// One plan message of a stream; `keeps` says whether the store keeps the new plans, if there are any.
    pub fn step(&mut self, keeps: bool, from: Stream, msg: &PlanMsg) -> DroneStep
        ensures drone { self.new ≡ (drone_step keeps self.old from msg.now).drone }
        ensures answer { result.answer ≡ (drone_step keeps self.old from msg.now).answer }
        ensures change { result.change ≡ change_by (drone_step keeps self.old from msg.now).event }
    {
        if !self.hears(msg) {
            return unchanging(None);
        }
        match *msg {
            PlanMsg::Ping { usec, seq, .. } => unchanging(Some(PlanMsg::Ping {
                to: node_of(from),
                usec,
                seq,
            })),
            PlanMsg::Count { count, kind, .. } => {
                unchanging(Some(self.count(from, count, kind)))
            }
            PlanMsg::Item {
                seq,
                kind,
                item,
                ..
            } => self.item(keeps, from, seq, kind, &item),
            PlanMsg::Ack { code, kind, .. } => unchanging(self.ack(from, code, kind)),
            PlanMsg::Clear { kind, .. } => self.clear(keeps, from, kind),
            PlanMsg::List { kind, .. } => unchanging(Some(self.list(from, kind))),
            PlanMsg::Request { seq, kind, .. } => {
                unchanging(Some(self.request(from, seq, kind)))
            }
        }
    }

    /// One tick: what is sent, and to which stream.
    pub fn tick(&mut self) -> Option<(Stream, PlanMsg)>
        ensures drone { self.new ≡ (drone_tick self.old).drone }
        ensures answer { result ≡ (drone_tick self.old).answer }
    {
        self.download.wait();
        let sent = self.upload.at_tick()?;
        if !self.upload.wait() {
            self.results.set(sent.0, false);
        }
        Some(sent)
    }
}
