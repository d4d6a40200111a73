// What holds of scenarios.
ghost use Rattle.std.specs.Prelude.{◌≡◌, ℕ, Bool, List, true, None};
ghost use Rattle.fleet_world.specs.Scenario.{played};
ghost use Rattle.fleet_world.specs.Authentic.{Authentic};
ghost use Rattle.fleet_theorem.specs.Completeness.{IsPlayable};
ghost use Rattle.fleet_theorem.specs.Theorem.{MainTheorem};

/// For all bytes of an authentic scenario under any key, whether its input ended after them or not.
pub fn every_scenario()
    ensures { (key : List ℕ) → (ended : Bool) → (bytes : List ℕ) → Authentic key ended bytes
        → MainTheorem key ended bytes }
{}

/// An authentic scenario of the grammar that keeps to the limits is played to its end.
pub fn every_playable_scenario()
    ensures { (key : List ℕ) → (bytes : List ℕ) → IsPlayable key bytes → Authentic key true bytes
        → (played key true bytes).stop ≡ None }
{}
