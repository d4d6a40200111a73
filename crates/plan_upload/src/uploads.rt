// The upload that is open at a drone.
ghost use Rattle.std.specs.Prelude.{option_to_list, ◌≡◌, ◌<◌, ◌≤◌, [], ◌∷◌, ◌++◌, Some, None, IfOk, IsTrue, is_some};
ghost use Rattle.std.specs.Prelude.{All};
ghost use Rattle.plan_items.specs.Kinds.{number_of, limit_of};
ghost use Rattle.plan_items.specs.Plans.{items_of};
ghost use Rattle.plan_items.specs.Validation.{item_fault, plan_fault};
ghost use Rattle.plan_upload.specs.Drone.{is_own, is_other};
ghost use Rattle.plan_upload.specs.Keeping.{HasKind, gathered_in, IsValidIn};
ghost use Rattle.plan_upload.specs.Gathering.{last_verdict, verdict_of, asked_of, acked_of, with_item, plans_with};
ghost use Rattle.plan_upload.specs.Gathering.{can_gather, is_sound_with, stream_of, kind_in, upload_after};
ghost use Rattle.plan_upload.specs.Gathering.{sent_at_tick};

use crate::NoMemory;
use crate::addresses::{acknowledge, request};
use crate::buffers::Buffer;
use crate::held::HeldPlans;
use crate::verdicts::Verdict;
use mav_names::{Stream, is_same_stream};
use plan_image::PlanItems;
use plan_items::{
    Item, MissionResult, Plan, PlanKind, PlanMsg, check_item, check_whole_with, code,
};
use std::alloc::Global;
use std::marker::Model;

/// A transfer is given up at the fifth tick in a row without a message that advances it.
pub const LAST_IDLE_TICK: u8 = 4;

/// What was announced, and the ticks without an item.
#[derive(Clone, Copy)]
pub struct OpenUpload {
    pub stream: Stream,
    pub kind: PlanKind,
    pub total: u16,
    pub idle: u8,
}

/// The open upload or none, with the buffer for its items.
#[derive(Drop)]
pub struct UploadSlot {
    open: Option<OpenUpload>,
    items: Buffer,
}

impl Model for UploadSlot {
    ghost use Rattle.std.specs.Prelude.{Option};
    ghost use Rattle.plan_upload.specs.Drone.{Upload};

    ghost Value = { Option Upload };

    ghost use Rattle.plan_upload.specs.OpenUpload.{upload_view, IsGathering};

    ghost view = { λ u. upload_view u.open u.items };

    ghost invariant = { λ u. IsGathering u.open u.items };
}

// What the last item does: only the whole can have a fault now.
#[tactic(auto, using(crate::proofs::Gathered::plan_fault_with))]
fn judge_last(kind: PlanKind, items: &Plan, last: &Item) -> Verdict
    requires items { All (λ item. item_fault (number_of kind) item ≡ None) (items_of items.now) }
    requires last { item_fault (number_of kind) last.now ≡ None }
    ensures { result ≡ last_verdict (plan_fault (number_of kind) (items_of items.now ++ last.now ∷ [])) }
{
    match check_whole_with(kind, items, last) {
        Ok(()) => Verdict::Install,
        Err(_) => Verdict::Refuse(MissionResult::INVALID),
    }
}

impl UploadSlot {
    pub fn new(alloc: Global) -> Result<UploadSlot, NoMemory>
        ensures { IfOk result (λ u. u ≡ None) }
    {
        let items = Buffer::new(alloc)?;
        Ok(UploadSlot { open: None, items })
    }

    pub fn stream(&self) -> Option<Stream>
        ensures { result ≡ stream_of self.now }
    {
        let open = self.open?;
        Some(open.stream)
    }

    pub fn is_of(&self, stream: Stream) -> bool
        ensures { result ≡ is_own self.now stream }
    {
        match self.open {
            None => false,
            Some(open) => is_same_stream(open.stream, stream),
        }
    }

    pub fn is_of_other(&self, stream: Stream) -> bool
        ensures { result ≡ is_other self.now stream }
    {
        match self.open {
            None => false,
            Some(open) => !is_same_stream(open.stream, stream),
        }
    }

    pub fn open(&mut self, stream: Stream, kind: PlanKind, total: u16)
        requires some { 0 < total }
        requires fits { total ≤ limit_of (number_of kind) }
        ensures { self.new ≡ Some (record {
          stream = stream;
          kind = number_of kind;
          total = total;
          items = [];
          idle = 0;
        }) }
    {
        self.items.clear();
        self.open = Some(OpenUpload {
            stream,
            kind,
            total,
            idle: 0,
        });
    }

    pub fn close(&mut self)
        ensures { self.new ≡ None }
    {
        self.open = None;
    }

    /// What this item of the sender would do. Nothing is changed.
    pub fn judge(&self, from: Stream, seq: u16, kind: u8, item: &Item) -> Verdict
        ensures { result ≡ verdict_of self.now from seq kind item.now }
    {
        let Some(open) = self.open else {
            return Verdict::NotOwn;
        };
        if !is_same_stream(open.stream, from) {
            return Verdict::NotOwn;
        }
        if kind != open.kind.number() || usize::from(seq) != self.items.len() {
            return Verdict::AskAgain;
        }
        if let Err(fault) = check_item(open.kind, item) {
            return Verdict::Refuse(code(fault));
        }
        if self.items.len() + 1 < usize::from(open.total) {
            return Verdict::Gather;
        }
        judge_last(open.kind, self.items.plan(), item)
    }

    pub fn asked(&self, to: Stream) -> Option<PlanMsg>
        ensures { result ≡ asked_of self.now to }
    {
        let open = self.open?;
        Some(request(to, open.kind.number(), self.items.len() as u16))
    }

    pub fn acked(&self, to: Stream, code: u8) -> Option<PlanMsg>
        ensures { result ≡ acked_of self.now to code }
    {
        let open = self.open?;
        Some(acknowledge(to, code, open.kind.number()))
    }

    pub fn gather(&mut self, item: Item)
        requires { IsTrue (can_gather self.old item) }
        ensures { self.new ≡ with_item self.old item }
    {
        if let Some(open) = self.open {
            self.items.put(item);
            self.open = Some(OpenUpload { idle: 0, ..open });
        }
    }

    /// The gathered items and this last one become the plan of their kind, and the upload is closed.
    pub fn finish(&mut self, item: Item, plans: &mut HeldPlans)
        requires { IsTrue (is_sound_with self.old item) }
        ensures upload { self.new ≡ None }
        ensures plans { plans.new ≡ plans_with plans.old self.old item }
    {
        if let Some(open) = self.open {
            self.items.put(item);
            plans.install(open.kind, &mut self.items);
            self.open = None;
        }
    }

    pub fn kind(&self) -> Option<PlanKind>
        ensures { result ≡ kind_in self.now }
    {
        let open = self.open?;
        Some(open.kind)
    }

    /// The kind of an open upload is a kind.
    pub fn see_kind(&self)
        ensures { HasKind self.now }
    {
        let _open = &self.open;
    }

    fn gathered(&self) -> &[Item]
        ensures { result.now ≡ gathered_in self.now }
    {
        match self.open {
            None => &[],
            Some(_) => self.items.plan().as_slice(),
        }
    }

    /// The items that were gathered, and one more after them, if there is one.
    pub fn items_with(&self, last: Option<Item>) -> PlanItems<'_>
        ensures items { result ≡ gathered_in self.now ++ option_to_list last }
        ensures valid { (item : Item) → last ≡ Some item → IsTrue (is_sound_with self.now item)
            → IsValidIn self.now result }
    {
        let _open = &self.open;
        PlanItems {
            items: self.gathered(),
            last,
        }
    }

    /// What is sent at a tick, and to which stream.
    pub fn at_tick(&self) -> Option<(Stream, PlanMsg)>
        ensures { result ≡ sent_at_tick self.now }
    {
        let open = self.open?;
        let kind = open.kind.number();
        if open.idle < LAST_IDLE_TICK {
            Some((
                open.stream,
                request(open.stream, kind, self.items.len() as u16),
            ))
        } else {
            Some((
                open.stream,
                acknowledge(open.stream, MissionResult::OPERATION_CANCELLED, kind),
            ))
        }
    }

    /// Counts a tick, and closes an upload that was idle for too long. False if none is open afterwards.
    pub fn wait(&mut self) -> bool
        ensures upload { self.new ≡ upload_after self.old }
        ensures open { result ≡ is_some (upload_after self.old) }
    {
        let Some(open) = self.open else {
            return false;
        };
        if open.idle < LAST_IDLE_TICK {
            self.open = Some(OpenUpload {
                idle: open.idle + 1,
                ..open
            });
            return true;
        }
        self.open = None;
        false
    }
}
