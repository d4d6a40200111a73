// The operation of a station, by the phase that it is in.
ghost use Rattle.std.specs.Prelude.{◌≡◌, ◌≤◌, ◌<◌, length};
ghost use Rattle.plan_items.specs.Kinds.{number_of, limit_of};
ghost use Rattle.plan_items.specs.Plans.{items_of};
ghost use Rattle.plan_upload.specs.Kinds.{clear_number};

use crate::Outcome;
use crate::buffers::Buffer;
use mav_names::Stream;
use plan_items::{MissionResult, Plan, PlanKind};

/// An upload: the plan, and what its drone did.
#[derive(Drop)]
pub struct UploadTask {
    pub kind: PlanKind,
    pub plan: Plan,
    /// A request came.
    pub asked: bool,
    /// The last item was sent.
    pub final_sent: bool,
    /// The code with which the upload was refused.
    pub code: Option<u8>,
    ghost fits: { length (items_of plan) ≤ limit_of (number_of kind) },
}

/// A download, with the buffer for its items.
#[derive(Drop)]
pub struct GetTask {
    pub kind: PlanKind,
    pub items: Buffer,
}

/// A download whose items come.
#[derive(Drop)]
pub struct Getting {
    pub kind: PlanKind,
    pub items: Buffer,
    pub total: u16,
    pub idle: u8,
    ghost more: { length items < total },
    ghost fits: { total ≤ 1000 },
}

/// The work of an operation. None in a clear is all kinds.
#[derive(Drop)]
pub enum Task {
    Upload(UploadTask),
    Clear(Option<PlanKind>),
    Get(GetTask),
}

/// `idle` counts the ticks since the last message that counted. A task that is `terminating` ends
/// as soon as the station is synchronised again.
#[derive(Drop)]
pub enum Stage {
    /// A PING was sent, and the station waits for its reply. With no number none was left, and nothing was sent.
    Pinging {
        task: Task,
        terminating: bool,
        number: Option<u32>,
    },
    /// A cancel was sent, and the station waits for the reply.
    Cancelling {
        task: Task,
        terminating: bool,
        number: u32,
    },
    Sending {
        upload: UploadTask,
        idle: u8,
    },
    Clearing {
        kind: Option<PlanKind>,
        idle: u8,
    },
    /// The station waits for the count of a download.
    Listing {
        get: GetTask,
        idle: u8,
    },
    Getting(Getting),
}

#[derive(Drop)]
pub struct OpenOperation {
    pub drone: Stream,
    pub stage: Stage,
}

impl Getting {
    pub fn into_task(self) -> GetTask
        ensures { result.kind ≡ self.kind }
    {
        let Getting { kind, items, .. } = self;
        GetTask { kind, items }
    }
}

impl Task {
    ghost use Rattle.plan_upload.specs.Operations.{kind_of_task, told_at};
    ghost use Rattle.plan_upload.specs.Outcomes.{told_of};

    /// The number of its kind.
    pub fn kind(&self) -> u8
        ensures { result ≡ kind_of_task self.now }
    {
        match self {
            Task::Upload(upload) => upload.kind.number(),
            Task::Clear(kind) => kind_number(*kind),
            Task::Get(get) => get.kind.number(),
        }
    }

    /// How it ends if it was terminating, by the reply to its cancel.
    pub fn outcome(self, code: u8) -> Outcome
        ensures { told_of result ≡ told_at self code }
    {
        let Task::Upload(upload) = self else {
            return Outcome::Ended(MissionResult::OPERATION_CANCELLED);
        };
        if upload.final_sent && code == MissionResult::ACCEPTED {
            return Outcome::Installed;
        }
        if upload.final_sent && code == MissionResult::ERROR {
            return Outcome::Unknown;
        }
        Outcome::NotInstalled(upload.code.unwrap_or(MissionResult::OPERATION_CANCELLED))
    }
}

impl Stage {
    ghost use Rattle.plan_upload.specs.Operations.{phase_of};

    /// The number of the phase, from 1.
    pub fn phase(&self) -> u8
        ensures { result ≡ phase_of self.now }
    {
        match self {
            Stage::Pinging { .. } => 1,
            Stage::Cancelling { .. } => 2,
            Stage::Sending { .. } => 3,
            Stage::Clearing { .. } => 4,
            Stage::Listing { .. } => 5,
            Stage::Getting(_) => 6,
        }
    }
}

/// The number of a kind in a clear.
pub fn kind_number(kind: Option<PlanKind>) -> u8
    ensures { result ≡ clear_number kind }
{
    match kind {
        None => PlanKind::ALL,
        Some(kind) => kind.number(),
    }
}
