// What an operator may take from a report.
ghost use Rattle.std.specs.Prelude.{ℕ, Bool, List};
ghost use Rattle.fleet_world.specs.Scenario.{played};
ghost use Rattle.fleet_world.specs.Authentic.{Authentic};
ghost use Rattle.fleet_safety.specs.Actions.{actions_of};
ghost use Rattle.fleet_safety.specs.Safe.{nodes_of};
ghost use Rattle.fleet_safety.specs.Meaning.{LinesAreTrue};

/// Each outcome that an authentic scenario's report has is true of an operation of that station, also
/// one that is unknown, each installation is that of one upload, and no upload is installed twice.
pub fn every_line_reported()
    ensures { (key : List ℕ) → (ended : Bool) → (bytes : List ℕ) → Authentic key ended bytes
        → LinesAreTrue (nodes_of (played key ended bytes).state.nodes) (played key ended bytes).events
        (actions_of key ended bytes) }
{}
