// What holds of every step, by the definitions alone.
ghost use Rattle.std.specs.Prelude.{◌≡◌, true, false};
ghost use Rattle.mav_names.specs.declared.names.Stream.{Stream};
ghost use Rattle.plan_items.specs.declared.messages.PlanMsg.{PlanMsg};
ghost use Rattle.plan_upload.specs.declared.changes.Change.TheVariants.{Same};
ghost use Rattle.plan_upload.specs.Changes.{change_of};
ghost use Rattle.plan_upload.specs.Drone.{DroneState, drone_step};
ghost use Rattle.plan_upload.specs.Keeping.{HasKind};

/// A step that changes no plan is the same whether or not the store keeps new ones.
pub fn every_unchanging_step()
    ensures { (d : DroneState) → (s : Stream) → (m : PlanMsg) → HasKind d.upload → change_of d s m ≡ Same
        → drone_step true d s m ≡ drone_step false d s m }
{}

/// If the store doesn't keep new plans they stay as they were.
pub fn every_kept_plan()
    ensures { (d : DroneState) → (s : Stream) → (m : PlanMsg) → (drone_step false d s m).drone.plans ≡ d.plans }
{}
