// The three plans that a drone holds.
ghost use Rattle.std.specs.Prelude.{◌≡◌, ◌≤◌, ◌<◌, ◌^◌, [], vec_len, IfOk};
ghost use Rattle.plan_items.specs.Kinds.{number_of};
ghost use Rattle.plan_items.specs.Plans.{items_of};
ghost use Rattle.plan_items.specs.Validation.{IsValid};
ghost use Rattle.plan_image.specs.Image.{IsImageOf, most_bytes};
ghost use Rattle.plan_upload.specs.Plans.{no_plans, plan_at, with_plan, without_plan, IsHoldable};
ghost use Rattle.plan_upload.specs.Kinds.{clear_number};

use crate::NoMemory;
use crate::buffers::Buffer;
use plan_image::{Kept, PlanItems, write_image};
use plan_items::{Plan, PlanKind};
use std::alloc::Global;
use std::marker::Model;
use std::mem;

/// A plan of each kind, empty or valid.
#[derive(Drop)]
pub struct HeldPlans {
    mission: Buffer,
    fence: Buffer,
    rally: Buffer,
}

impl Model for HeldPlans {
    ghost use Rattle.std.specs.Prelude.{List};
    ghost use Rattle.plan_upload.specs.Plans.{Plans, IsHoldable};

    ghost Value = { Plans };

    ghost view = { λ p. record { mission = p.mission; fence = p.fence; rally = p.rally } };

    ghost invariant = { λ p. IsHoldable 0 p.mission × IsHoldable 1 p.fence × IsHoldable 2 p.rally };
}

impl HeldPlans {
    pub fn new(alloc: Global) -> Result<HeldPlans, NoMemory>
        ensures { IfOk result (λ p. p ≡ no_plans) }
    {
        let mission = Buffer::new(alloc)?;
        let fence = Buffer::new(alloc)?;
        let rally = Buffer::new(alloc)?;
        Ok(HeldPlans {
            mission,
            fence,
            rally,
        })
    }

    pub fn of(&self, kind: PlanKind) -> &Plan
        ensures items { items_of result.now ≡ plan_at self.now (number_of kind) }
        ensures holdable { IsHoldable (number_of kind) (items_of result.now) }
    {
        match kind {
            PlanKind::Mission => self.mission.plan(),
            PlanKind::Fence => self.fence.plan(),
            PlanKind::Rally => self.rally.plan(),
        }
    }

    /// Exchanges the plan of the kind for the items, and copies none of them.
    pub fn install(&mut self, kind: PlanKind, items: &mut Buffer)
        requires { IsValid (number_of kind) items.old }
        ensures plans { self.new ≡ with_plan self.old (number_of kind) items.old }
        ensures items { items.new ≡ [] }
    {
        match kind {
            PlanKind::Mission => mem::swap(&mut self.mission, items),
            PlanKind::Fence => mem::swap(&mut self.fence, items),
            PlanKind::Rally => mem::swap(&mut self.rally, items),
        }
        items.clear();
    }

    /// Empties the plan of the kind, and with None all three.
    pub fn empty(&mut self, kind: Option<PlanKind>)
        ensures { self.new ≡ without_plan self.old (clear_number kind) }
    {
        match kind {
            Some(PlanKind::Mission) => self.mission.clear(),
            Some(PlanKind::Fence) => self.fence.clear(),
            Some(PlanKind::Rally) => self.rally.clear(),
            None => {
                self.mission.clear();
                self.fence.clear();
                self.rally.clear();
            }
        }
    }

    /// Becomes a copy of the plans that were kept.
    pub fn fill(&mut self, kept: &Kept)
        ensures { self.new ≡ kept.now.plans }
    {
        self.mission.fill(&kept.mission);
        self.fence.fill(&kept.fence);
        self.rally.fill(&kept.rally);
    }

    fn items(&self, kind: PlanKind) -> PlanItems<'_>
        ensures items { result ≡ plan_at self.now (number_of kind) }
        ensures holdable { IsHoldable (number_of kind) result }
    {
        PlanItems {
            items: self.of(kind).as_slice(),
            last: None,
        }
    }

    /// The stored image of these plans.
    pub fn write(&self, alloc: Global, sys: u8, floor: u64) -> Result<Vec<u8>, NoMemory>
        requires { floor < 2 ^ 48 }
        ensures image { IfOk result (λ bytes. IsImageOf sys floor self.now bytes.items) }
        ensures short { IfOk result (λ bytes. vec_len bytes ≤ most_bytes) }
    {
        let mission = self.items(PlanKind::Mission);
        let fence = self.items(PlanKind::Fence);
        let rally = self.items(PlanKind::Rally);
        write_image(alloc, sys, floor, &mission, &fence, &rally)
    }

    /// The stored image of these plans with that of one kind replaced.
    pub fn write_with(
        &self,
        alloc: Global,
        sys: u8,
        floor: u64,
        kind: PlanKind,
        items: &PlanItems<'_>,
    ) -> Result<Vec<u8>, NoMemory>
        requires below { floor < 2 ^ 48 }
        requires holdable { IsHoldable (number_of kind) items.now }
        ensures image { IfOk result (λ bytes. IsImageOf sys floor
            (with_plan self.now (number_of kind) items.now) bytes.items) }
        ensures short { IfOk result (λ bytes. vec_len bytes ≤ most_bytes) }
    {
        let mission = self.items(PlanKind::Mission);
        let fence = self.items(PlanKind::Fence);
        let rally = self.items(PlanKind::Rally);
        match kind {
            PlanKind::Mission => write_image(alloc, sys, floor, items, &fence, &rally),
            PlanKind::Fence => write_image(alloc, sys, floor, &mission, items, &rally),
            PlanKind::Rally => write_image(alloc, sys, floor, &mission, &fence, items),
        }
    }

    /// The stored image of these plans after that of the kind, or with None all three, was emptied.
    pub fn write_without(
        &self,
        alloc: Global,
        sys: u8,
        floor: u64,
        kind: Option<PlanKind>,
    ) -> Result<Vec<u8>, NoMemory>
        requires { floor < 2 ^ 48 }
        ensures image { IfOk result (λ bytes. IsImageOf sys floor
            (without_plan self.now (clear_number kind)) bytes.items) }
        ensures short { IfOk result (λ bytes. vec_len bytes ≤ most_bytes) }
    {
        let none = PlanItems {
            items: &[],
            last: None,
        };
        match kind {
            None => write_image(alloc, sys, floor, &none, &none, &none),
            Some(kind) => self.write_with(alloc, sys, floor, kind, &none),
        }
    }
}
