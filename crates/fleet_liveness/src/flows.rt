// What may stop a flow.
ghost use Rattle.std.specs.Prelude.{ℕ, ◌+◌, ◌*◌, ◌≤◌, length};
ghost use Rattle.fleet_world.specs.WorldState.{WorldState};
ghost use Rattle.fleet_world.specs.Steps.{flows, most_frames};
ghost use Rattle.fleet_invariants.specs.Sound.{Sound};
ghost use Rattle.fleet_liveness.specs.Room.{IsDone};

/// The limit of frames alone: each node sends at most 40 frames for one that it is given, which are a
/// drone's parameters, and no node of a sound state runs out of timestamps.
pub fn every_flow_with_room()
    ensures { (s : WorldState) → Sound s → (k : ℕ) → length s.sent + 40 * (k * length s.nodes) ≤ most_frames
        → IsDone (flows k s) }
{}
