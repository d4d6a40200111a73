// What scenarios lead to.
ghost use Rattle.std.specs.Prelude.{ℕ, ◌≡◌, Bool, List};
ghost use Rattle.mav_names.specs.declared.names.Name.{Name};
ghost use Rattle.scenario_lines.specs.declared.lines.Line.{Line};
ghost use Rattle.scenario_lines.specs.declared.lines.Line.TheVariants.{Deliver, Tick};
ghost use Rattle.fleet_world.specs.WorldState.{WorldState};
ghost use Rattle.fleet_world.specs.Scenario.{played};
ghost use Rattle.fleet_world.specs.Authentic.{Authentic};
ghost use Rattle.fleet_invariants.specs.Laws.{IsQuiet};
ghost use Rattle.fleet_invariants.specs.Sound.{Sound};
ghost use Rattle.fleet_safety.specs.Reporting.{seen, plan_lines, steps_reported};
ghost use Rattle.fleet_safety.specs.Actions.{calls_of, actions_of};
ghost use Rattle.fleet_safety.specs.Causes.{without_waits, HearsOne, TicksAtMost, Causes};
ghost use Rattle.fleet_safety.specs.Safe.{nodes_of, events_of, history_of, Safe};

/// For all bytes of an authentic scenario under any key, whether its input ended after them or not.
pub fn every_scenario()
    ensures { (key : List ℕ) → (ended : Bool) → (bytes : List ℕ) → Authentic key ended bytes
        → Safe key bytes (played key ended bytes) (actions_of key ended bytes) }
{}

/// So for all bytes of a scenario without foreign bytes: no line of it is a `noise` line.
pub fn every_quiet_scenario()
    ensures { (key : List ℕ) → (ended : Bool) → (bytes : List ℕ) → IsQuiet bytes
        → Safe key bytes (played key ended bytes) (actions_of key ended bytes) }
{}

/// So what a report says of plans and outcomes is, in this order, what the abstract mission store goes
/// through: nothing is reported that doesn't happen there, nothing twice, and nothing is left out.
pub fn every_report()
    ensures { (key : List ℕ) → (ended : Bool) → (bytes : List ℕ) → Authentic key ended bytes
        → plan_lines (seen (played key ended bytes).events)
        ≡ steps_reported (history_of (nodes_of (played key ended bytes).state.nodes) (actions_of key ended bytes)) }
{}

/// The calls of a line, in any state, are the events that it causes, and no others: a `begin` line is
/// one begin of the draft, a `tick` line one tick, frames come to the nodes of a `deliver`, `flow` or
/// `noise` line, whose services may reply, and the drone of a `restart` line starts again.
pub fn every_cause()
    ensures { (number : ℕ) → (s : WorldState) → (line : Line)
        → Causes s line (without_waits (events_of (calls_of number s line))) }
{}

/// In the states of authentic scenarios a `deliver` line is one giving of a sent frame to that node, or
/// messages of other services that the node sends, or nothing.
pub fn every_delivery()
    ensures { (number : ℕ) → (s : WorldState) → Sound s → (which : ℕ) → (node : Name)
        → HearsOne node (without_waits (events_of (calls_of number s (Deliver which node)))) }
{}

/// In the states of authentic scenarios no station transfers a file, so that a station sends at most two messages of
/// other services at a `tick` line: one of commands and one of parameters.
pub fn every_tick()
    ensures { (number : ℕ) → (s : WorldState) → Sound s → (node : Name)
        → TicksAtMost 2 node (without_waits (events_of (calls_of number s (Tick node)))) }
{}
