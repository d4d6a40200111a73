// The download that is open at a drone.
ghost use Rattle.std.specs.Prelude.{◌≡◌, ◌≤◌, length, None, IfOk};
ghost use Rattle.plan_items.specs.Kinds.{number_of};
ghost use Rattle.plan_items.specs.Plans.{items_of};
ghost use Rattle.plan_upload.specs.Drone.{is_downloading, download_without, copy_of, waited};
ghost use Rattle.plan_upload.specs.Copying.{item_in, download_after, given_of};

use crate::NoMemory;
use crate::addresses::acknowledge;
use crate::buffers::Buffer;
use crate::uploads::LAST_IDLE_TICK;
use mav_names::{Stream, is_same_stream, node_of};
use plan_items::{Item, MissionResult, Plan, PlanKind, PlanMsg};
use std::alloc::Global;
use std::marker::Model;

/// Who downloads which plan, and the ticks without a request that was fulfilled.
#[derive(Clone, Copy)]
pub struct OpenDownload {
    pub stream: Stream,
    pub kind: PlanKind,
    pub idle: u8,
}

/// The open download or none, with the buffer for its copy of the plan.
#[derive(Drop)]
pub struct DownloadSlot {
    open: Option<OpenDownload>,
    items: Buffer,
}

impl Model for DownloadSlot {
    ghost use Rattle.std.specs.Prelude.{Option};
    ghost use Rattle.plan_upload.specs.Drone.{Download};

    ghost Value = { Option Download };

    ghost use Rattle.plan_upload.specs.OpenDownload.{download_view};

    ghost view = { λ t. download_view t.open t.items };
}

impl DownloadSlot {
    pub fn new(alloc: Global) -> Result<DownloadSlot, NoMemory>
        ensures { IfOk result (λ t. t ≡ None) }
    {
        let items = Buffer::new(alloc)?;
        Ok(DownloadSlot { open: None, items })
    }

    pub fn is_of_other(&self, stream: Stream) -> bool
        ensures { result ≡ is_downloading self.now stream }
    {
        match self.open {
            None => false,
            Some(open) => !is_same_stream(open.stream, stream),
        }
    }

    pub fn close_own(&mut self, stream: Stream)
        ensures { self.new ≡ download_without self.old stream }
    {
        if let Some(open) = self.open {
            if is_same_stream(open.stream, stream) {
                self.open = None;
            }
        }
    }

    /// Becomes a download of a copy of the plan, and none if the plan is empty.
    pub fn copy(&mut self, stream: Stream, kind: PlanKind, plan: &Plan)
        requires { length (items_of plan.now) ≤ 1000 }
        ensures { self.new ≡ copy_of stream (number_of kind) (items_of plan.now) }
    {
        if plan.is_empty() {
            self.open = None;
            return;
        }
        self.items.fill(plan);
        self.open = Some(OpenDownload {
            stream,
            kind,
            idle: 0,
        });
    }

    fn find(&self, stream: Stream, seq: u16, kind: u8) -> Option<Item>
        ensures { result ≡ item_in self.now stream seq kind }
    {
        let open = self.open?;
        if is_same_stream(open.stream, stream) && open.kind.number() == kind {
            self.items.get(usize::from(seq))
        } else {
            None
        }
    }

    /// The reply to a request of an item.
    pub fn give(&mut self, to: Stream, seq: u16, kind: u8) -> PlanMsg
        ensures download { self.new ≡ download_after self.old (item_in self.old to seq kind) }
        ensures answer { result ≡ given_of to seq kind (item_in self.old to seq kind) }
    {
        let Some(item) = self.find(to, seq, kind) else {
            return acknowledge(to, MissionResult::INVALID_SEQUENCE, kind);
        };
        if let Some(open) = self.open {
            self.open = Some(OpenDownload { idle: 0, ..open });
        }
        PlanMsg::Item {
            to: node_of(to),
            seq,
            kind,
            item,
        }
    }

    /// Counts a tick, and closes a download that was idle for too long.
    pub fn wait(&mut self)
        ensures { self.new ≡ waited self.old }
    {
        if let Some(open) = self.open {
            self.open = if open.idle < LAST_IDLE_TICK {
                Some(OpenDownload {
                    idle: open.idle + 1,
                    ..open
                })
            } else {
                None
            };
        }
    }
}
