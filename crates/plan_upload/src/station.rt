// The station's side of the mission protocol.
ghost use Rattle.std.specs.Prelude.{◌≡◌, ◌+◌, ◌<◌, Some, None, is_some, IfOk, IfErr, OnOk, OnErr};
ghost use Rattle.std.specs.Option.{option_map};
ghost use Rattle.plan_items.specs.Kinds.{number_of};
ghost use Rattle.plan_items.specs.Plans.{items_of};
ghost use Rattle.plan_upload.specs.Kinds.{clear_number};
ghost use Rattle.plan_upload.specs.Operations.{task_view, stage_view, cancelling_view, pinging_view};
ghost use Rattle.plan_upload.specs.Outcomes.{told_of};
ghost use Rattle.plan_upload.specs.Refusals.{refusal, upload_refusal, first_of, busy_with};
ghost use Rattle.plan_upload.specs.Station.{fresh_station, with_operation, station_step, station_tick, station_cancel};
ghost use Rattle.plan_upload.specs.Station.{begin_upload, begin_clear, begin_get, begins, starts, resynchronises};
ghost use Rattle.plan_upload.specs.Station.{synchronised, ends_with, untold};

mod cancelling;
mod clearing;
mod getting;
mod listing;
mod pinging;
mod sending;

use crate::addresses::receiver;
use crate::buffers::Buffer;
use crate::operations::{GetTask, OpenOperation, Stage, Task, UploadTask, kind_number};
use crate::synced::SyncedDrones;
use crate::{BeginFault, NoMemory, OpFault, Outcome};
use mav_names::{Name, Stream, everyone, is_same_name, is_same_stream, node_of};
use plan_items::{Plan, PlanKind, PlanMsg};
use std::alloc::Global;
use std::marker::Model;

/// A ground station, which does one operation at a time, with one drone.
#[derive(Drop)]
pub struct Station {
    alloc: Global,
    me: Name,
    boot: u64,
    pings: u32,
    synced: SyncedDrones,
    operation: Option<OpenOperation>,
    outcome: Option<Outcome>,
}

impl Model for Station {
    ghost use Rattle.plan_upload.specs.Station.{StationState};

    ghost Value = { StationState };

    ghost use Rattle.plan_upload.specs.StationView.{station_view};

    ghost view = { station_view };
}

impl Station {
    /// A station with this name and boot time in microseconds. The PING numbers up to `pings` count as
    /// used. All its memory is allocated here, but for the buffers of downloads.
    pub fn new(alloc: Global, sys: u8, comp: u8, boot: u64, pings: u32) -> Result<Station, NoMemory>
        ensures { IfOk result (λ s. s ≡ fresh_station sys comp boot pings) }
    {
        let synced = SyncedDrones::new(alloc)?;
        Ok(Station {
            alloc,
            me: Name { sys, comp },
            boot,
            pings,
            synced,
            operation: None,
            outcome: None,
        })
    }

    // The operation continues in this stage.
    fn stay(&mut self, drone: Stream, stage: Stage)
        ensures { self.new ≡ with_operation self.old (stage_view drone stage) }
    {
        self.operation = Some(OpenOperation { drone, stage });
    }

    // It waits for the reply to a PING of this number; none was left for one without a number.
    fn stay_pinging(&mut self, drone: Stream, task: Task, terminating: bool, number: Option<u32>)
        ensures { self.new ≡ with_operation self.old (pinging_view drone task terminating number) }
    {
        self.stay(
            drone,
            Stage::Pinging {
                task,
                terminating,
                number,
            },
        );
    }

    // It waits for the reply to a cancel, which was sent at the reply to that PING.
    fn stay_cancelling(&mut self, drone: Stream, task: Task, terminating: bool, number: u32)
        ensures { self.new ≡ with_operation self.old (cancelling_view drone task terminating number) }
    {
        self.stay(
            drone,
            Stage::Cancelling {
                task,
                terminating,
                number,
            },
        );
    }

    // A resynchronisation attempt, for which a PING number is left.
    fn ping(&mut self, drone: Stream, task: Task, terminating: bool) -> PlanMsg
        requires { self.old.pings < 4294967295 }
        ensures station { self.new ≡ (resynchronises self.old (pinging_view drone task terminating None)).station }
        ensures answer { Some result ≡ (resynchronises self.old (pinging_view drone task terminating None)).answer }
    {
        self.pings += 1;
        let number = self.pings;
        self.stay_pinging(drone, task, terminating, Some(number));
        PlanMsg::Ping {
            to: everyone(),
            usec: self.boot,
            seq: number,
        }
    }

    // A resynchronisation attempt.
    fn resynchronise(&mut self, drone: Stream, task: Task, terminating: bool) -> Option<PlanMsg>
        ensures station { self.new ≡ (resynchronises self.old (pinging_view drone task terminating None)).station }
        ensures answer { result ≡ (resynchronises self.old (pinging_view drone task terminating None)).answer }
    {
        if self.pings < u32::MAX {
            return Some(self.ping(drone, task, terminating));
        }
        self.stay_pinging(drone, task, terminating, None);
        None
    }

    // The first message of a synchronised task is sent.
    fn start(&mut self, drone: Stream, task: Task) -> PlanMsg
        ensures station { self.new ≡ (starts self.old (task_view drone task)).station }
        ensures answer { Some result ≡ (starts self.old (task_view drone task)).answer }
    {
        let to = node_of(drone);
        match task {
            Task::Upload(upload) => {
                let count = upload.plan.len() as u16;
                let kind = upload.kind.number();
                self.stay(drone, Stage::Sending { upload, idle: 0 });
                PlanMsg::Count { to, count, kind }
            }
            Task::Clear(kind) => {
                self.stay(drone, Stage::Clearing { kind, idle: 0 });
                PlanMsg::Clear {
                    to,
                    kind: kind_number(kind),
                }
            }
            Task::Get(get) => {
                let kind = get.kind.number();
                self.stay(drone, Stage::Listing { get, idle: 0 });
                PlanMsg::List { to, kind }
            }
        }
    }

    fn synchronise(&mut self, drone: Stream)
        ensures { self.new ≡ synchronised self.old drone }
    {
        self.synced.add(drone);
    }

    // The operation with this drone ends.
    fn end(&mut self, drone: Stream, outcome: Outcome)
        ensures { self.new ≡ (ends_with self.old drone None (told_of outcome)).station }
    {
        self.synced.add(drone);
        self.operation = None;
        self.outcome = Some(outcome);
    }

    fn busy(&self) -> Option<OpFault>
        ensures { result ≡ busy_with self.now.operation }
    {
        match &self.operation {
            None => None,
            Some(operation) => Some(OpFault::Busy {
                phase: operation.stage.phase(),
            }),
        }
    }

    fn refuses(&self) -> Option<OpFault>
        ensures { result ≡ refusal self.now }
    {
        let busy = self.busy();
        if busy.is_some() {
            return busy;
        }
        if self.pings == u32::MAX {
            return Some(OpFault::PingsSpent);
        }
        None
    }

    fn refuses_upload(&self, kind: PlanKind, plan: &Plan) -> Option<OpFault>
        ensures { result ≡ upload_refusal self.now (number_of kind) (items_of plan.now) }
    {
        let busy = self.busy();
        if busy.is_some() {
            return busy;
        }
        if plan.is_empty() {
            return Some(OpFault::EmptyPlan);
        }
        if self.pings == u32::MAX {
            return Some(OpFault::PingsSpent);
        }
        if plan.len() > usize::from(kind.limit()) {
            return Some(OpFault::NotFit {
                limit: kind.limit(),
            });
        }
        None
    }

    // A new operation starts, at once if the station is synchronised with the drone.
    fn accept(&mut self, drone: Stream, task: Task) -> PlanMsg
        requires { self.old.pings < 4294967295 }
        ensures station { self.new ≡ (begins self.old (task_view drone task)).station }
        ensures answer { Some result ≡ (begins self.old (task_view drone task)).answer }
    {
        self.outcome = None;
        if self.synced.has(drone) {
            self.start(drone, task)
        } else {
            self.ping(drone, task, false)
        }
    }

    /// The station's own name.
    pub fn me(&self) -> Name
        ensures { result ≡ self.now.me }
    {
        self.me
    }

    /// Starts an upload of the plan. A refusal returns it.
    pub fn begin(
        &mut self,
        drone: Stream,
        kind: PlanKind,
        plan: Plan,
    ) -> Result<PlanMsg, BeginFault>
        ensures ok { OnOk result (self.new ≡ (begin_upload self.old drone (number_of kind) (items_of plan)).station) }
        ensures message { IfOk result (λ m. Some m
            ≡ (begin_upload self.old drone (number_of kind) (items_of plan)).answer) }

        // It is refused exactly if there is a cause, with the first.
        ensures accepted { OnOk result (upload_refusal self.old (number_of kind) (items_of plan) ≡ None) }
        ensures refused { IfErr result (λ f. upload_refusal self.old (number_of kind) (items_of plan) ≡ Some f.why) }
        ensures plan { IfErr result (λ f. f.plan ≡ plan) }
        ensures err { OnErr result (self.new ≡ self.old) }
    {
        if let Some(why) = self.refuses_upload(kind, &plan) {
            return Err(BeginFault { why, plan });
        }
        let upload = UploadTask {
            kind,
            plan,
            asked: false,
            final_sent: false,
            code: None,
        };
        Ok(self.accept(drone, Task::Upload(upload)))
    }

    /// Starts a clear of the plan of a kind, and with None of all three.
    pub fn clear(&mut self, drone: Stream, kind: Option<PlanKind>) -> Result<PlanMsg, OpFault>
        ensures ok { OnOk result (self.new ≡ (begin_clear self.old drone (clear_number kind)).station) }
        ensures message { IfOk result (λ m. Some m ≡ (begin_clear self.old drone (clear_number kind)).answer) }
        ensures accepted { OnOk result (refusal self.old ≡ None) }
        ensures refused { IfErr result (λ f. refusal self.old ≡ Some f) }
        ensures err { OnErr result (self.new ≡ self.old) }
    {
        match self.refuses() {
            Some(fault) => Err(fault),
            None => Ok(self.accept(drone, Task::Clear(kind))),
        }
    }

    /// Starts a download of the plan of a kind, for which it allocates a buffer here.
    pub fn get(&mut self, drone: Stream, kind: PlanKind) -> Result<PlanMsg, OpFault>
        ensures ok { OnOk result (self.new ≡ (begin_get self.old drone (number_of kind)).station) }
        ensures message { IfOk result (λ m. Some m ≡ (begin_get self.old drone (number_of kind)).answer) }
        ensures accepted { OnOk result (refusal self.old ≡ None) }

        // A cause comes before want of memory.
        ensures refused { IfErr result (λ f. first_of (refusal self.old) (Some OpFault.NoMemory) ≡ Some f) }
        ensures err { OnErr result (self.new ≡ self.old) }
    {
        if let Some(fault) = self.refuses() {
            return Err(fault);
        }
        let alloc = self.alloc;
        let Ok(items) = Buffer::new(alloc) else {
            return Err(OpFault::NoMemory);
        };
        Ok(self.accept(drone, Task::Get(GetTask { kind, items })))
    }

    /// One plan message of a stream, and what is sent in reply, if anything.
    pub fn step(&mut self, from: Stream, msg: &PlanMsg) -> Option<PlanMsg>
        ensures station { self.new ≡ (station_step self.old from msg.now).station }
        ensures answer { result ≡ (station_step self.old from msg.now).answer }
    {
        let Some(OpenOperation { drone, stage }) = self.operation.take() else {
            return None;
        };
        if !is_same_stream(from, drone) || !is_same_name(receiver(msg), self.me) {
            self.stay(drone, stage);
            return None;
        }
        match stage {
            Stage::Pinging {
                task,
                terminating,
                number,
            } => self.pinging_step(drone, task, terminating, number, msg),
            Stage::Cancelling {
                task,
                terminating,
                number,
            } => self.cancelling_step(drone, task, terminating, number, msg),
            Stage::Sending { upload, idle } => self.sending_step(drone, upload, idle, msg),
            Stage::Clearing { kind, idle } => self.clearing_step(drone, kind, idle, msg),
            Stage::Listing { get, idle } => self.listing_step(drone, get, idle, msg),
            Stage::Getting(get) => self.getting_step(drone, get, msg),
        }
    }

    /// One tick: what is sent, if anything.
    pub fn tick(&mut self) -> Option<PlanMsg>
        ensures station { self.new ≡ (station_tick self.old).station }
        ensures answer { result ≡ (station_tick self.old).answer }
    {
        let Some(OpenOperation { drone, stage }) = self.operation.take() else {
            return None;
        };
        match stage {
            Stage::Pinging {
                task,
                terminating,
                number,
            } => self.pinging_tick(drone, task, terminating, number),
            Stage::Cancelling {
                task,
                terminating,
                ..
            } => self.resynchronise(drone, task, terminating),
            Stage::Sending { upload, idle } => self.sending_tick(drone, upload, idle),
            Stage::Clearing { kind, idle } => self.clearing_tick(drone, kind, idle),
            Stage::Listing { get, idle } => self.listing_tick(drone, get, idle),
            Stage::Getting(get) => self.getting_tick(drone, get),
        }
    }

    /// Gives up the operation, which ends with the next resynchronisation.
    pub fn cancel(&mut self) -> Option<PlanMsg>
        ensures station { self.new ≡ (station_cancel self.old).station }
        ensures answer { result ≡ (station_cancel self.old).answer }
    {
        let Some(OpenOperation { drone, stage }) = self.operation.take() else {
            return None;
        };
        match stage {
            Stage::Pinging { task, number, .. } => {
                self.stay_pinging(drone, task, true, number);
                None
            }
            Stage::Cancelling { task, number, .. } => {
                self.stay_cancelling(drone, task, true, number);
                None
            }
            Stage::Sending { upload, .. } => {
                self.resynchronise(drone, Task::Upload(upload), true)
            }
            Stage::Clearing { kind, .. } => self.resynchronise(drone, Task::Clear(kind), true),
            Stage::Listing { get, .. } => self.resynchronise(drone, Task::Get(get), true),
            Stage::Getting(get) => self.resynchronise(drone, Task::Get(get.into_task()), true),
        }
    }

    /// The outcome that was reached. It is returned once.
    pub fn outcome(&mut self) -> Option<Outcome>
        ensures told { option_map told_of result ≡ self.old.outcome }
        ensures station { self.new ≡ untold self.old }
    {
        self.outcome.take()
    }
}
