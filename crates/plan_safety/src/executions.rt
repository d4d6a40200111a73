// Executions of the world are executions of the store.
ghost use Rattle.std.specs.Prelude.{List, []};
ghost use Rattle.plan_safety.specs.Store.{first_store};
ghost use Rattle.plan_safety.specs.World.{Nodes, Distinct, Start, Event, first_world};
ghost use Rattle.plan_safety.specs.Safety.{SamePlans, IsExecution};
ghost use Rattle.plan_safety.specs.History.{IsHistory, final, history, store_of};

/// For every list of events, after each of them the plans of all drones are the store's, and the event
/// met what the store's tables need. The one premise is that names are distinct.
pub fn every_execution()
    ensures { (nodes : Nodes) → Distinct nodes → (start : Start) → (events : List Event)
        → IsExecution nodes (first_world start) first_store events }
{}

/// So what the store goes through in an execution is one of its histories, of which the other laws
/// speak, and the plans at the end are the store's.
pub fn every_history()
    ensures valid { (nodes : Nodes) → Distinct nodes → (start : Start) → (events : List Event)
        → IsHistory (history nodes (first_world start) [] events) }
    ensures plans { (nodes : Nodes) → Distinct nodes → (start : Start) → (events : List Event)
        → SamePlans (final nodes (first_world start) events) (store_of (history nodes (first_world start) [] events)) }
{}
