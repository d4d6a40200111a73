// A drone stays in range, and says what is in range.
ghost use Rattle.std.specs.Prelude.{ℕ, ◌<◌, Bool};
ghost use Rattle.mav_names.specs.declared.names.Stream.{Stream};
ghost use Rattle.plan_items.specs.declared.messages.PlanMsg.{PlanMsg};
ghost use Rattle.plan_upload.specs.Plans.{no_plans};
ghost use Rattle.plan_upload.specs.Drone.{DroneState, fresh_drone, restored, drone_step, drone_tick};
ghost use Rattle.plan_ranges.specs.Ranges.{InRange, StreamInRange, DroneInRange, DroneStepInRange, DroneTickInRange};

/// At its start without plans, and when it starts again with those that it kept.
pub fn every_fresh_drone()
    ensures first { (sys : ℕ) → sys < 256 → DroneInRange (fresh_drone sys no_plans) }
    ensures again { (d : DroneState) → DroneInRange d → DroneInRange (restored d) }
{}

/// At each plan message in range, whether its store keeps new plans or not, and at each tick.
pub fn every_drone()
    ensures step { (keeps : Bool) → (d : DroneState) → (s : Stream) → (m : PlanMsg) → DroneInRange d → StreamInRange s
        → InRange m → DroneStepInRange (drone_step keeps d s m) }
    ensures tick { (d : DroneState) → DroneInRange d → DroneTickInRange (drone_tick d) }
{}
