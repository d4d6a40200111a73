// What a drone's store keeps.
ghost use Rattle.std.specs.Prelude.{◌≡◌, ◌<◌, ◌≤◌, ◌^◌, IfOk, true, false, vec_len};
ghost use Rattle.plan_image.specs.Image.{IsImageOf, most_bytes};
ghost use Rattle.plan_upload.specs.Changes.{change_of};
ghost use Rattle.plan_upload.specs.Drone.{fresh_drone, drone_step};
ghost use Rattle.plan_upload.specs.declared.changes.Change.TheVariants.{Same};

use super::Drone;
use crate::NoMemory;
use crate::addresses::item_in;
use crate::changes::Change;
use mav_names::Stream;
use plan_image::Kept;
use plan_items::PlanMsg;
use std::alloc::Global;

impl Drone {
    /// A drone that starts again with the plans that its store kept: nothing is open, and no stream has
    /// a result. Allocates all the memory that the drone will need.
    pub fn restore(alloc: Global, sys: u8, kept: &Kept) -> Result<Drone, NoMemory>
        ensures { IfOk result (λ d. d ≡ fresh_drone sys kept.now.plans) }
    {
        let mut drone = Drone::new(alloc, sys)?;
        drone.plans.fill(kept);
        Ok(drone)
    }

    fn change_by(&self, from: Stream, msg: &PlanMsg) -> Change
        ensures { result ≡ change_of self.now from msg.now }
    {
        if !self.hears(msg) {
            return Change::Same;
        }
        match *msg {
            PlanMsg::Item {
                seq,
                kind,
                item,
                ..
            } => self.change_by_item(from, seq, kind, &item),
            PlanMsg::Clear { kind, .. } => self.change_by_clear(from, kind),
            _ => Change::Same,
        }
    }

    /// What `step` would do to the plans if the store keeps new ones. It changes nothing, and doesn't allocate.
    pub fn change(&self, from: Stream, msg: &PlanMsg) -> Change
        ensures change { result ≡ change_of self.now from msg.now }
        ensures same { result ≡ Same → drone_step true self.now from msg.now ≡ drone_step false self.now from msg.now }
    {
        self.upload.see_kind();
        self.change_by(from, msg)
    }

    /// The stored image of the plans, with this persisted timestamp low bound.
    pub fn kept(&self, alloc: Global, floor: u64) -> Result<Vec<u8>, NoMemory>
        requires { floor < 2 ^ 48 }
        ensures image { IfOk result (λ bytes. IsImageOf self.now.sys floor self.now.plans bytes.items) }
        ensures short { IfOk result (λ bytes. vec_len bytes ≤ most_bytes) }
    {
        self.plans.write(alloc, self.sys, floor)
    }

    /// The stored image of the plans that `step` would leave at this message if the store keeps it.
    pub fn kept_after(
        &self,
        alloc: Global,
        floor: u64,
        from: Stream,
        msg: &PlanMsg,
    ) -> Result<Vec<u8>, NoMemory>
        requires { floor < 2 ^ 48 }
        ensures image { IfOk result (λ bytes. IsImageOf self.now.sys floor
            (drone_step true self.now from msg.now).drone.plans bytes.items) }
        ensures short { IfOk result (λ bytes. vec_len bytes ≤ most_bytes) }
    {
        self.upload.see_kind();
        match self.change(from, msg) {
            Change::Same => self.plans.write(alloc, self.sys, floor),
            Change::Install(kind) => {
                let items = self.upload.items_with(item_in(msg));
                self.plans.write_with(alloc, self.sys, floor, kind, &items)
            }
            Change::Empty(kind) => self.plans.write_without(alloc, self.sys, floor, kind),
        }
    }
}
