// What plans and uploads are in each history of the store.
ghost use Rattle.std.specs.Prelude.{ℕ, List, [], ◌∷◌, ◌≡◌, ◌≤◌, ◌<◌};
ghost use Rattle.mav_names.specs.declared.names.Stream.{Stream};
ghost use Rattle.plan_items.specs.declared.items.Item.{Item};
ghost use Rattle.plan_upload.specs.Plans.{plan_at};
ghost use Rattle.plan_upload.specs.Station.{Told_installed};
ghost use Rattle.plan_safety.specs.Frames.{Frame};
ghost use Rattle.plan_safety.specs.Store.{Installed, Ended};
ghost use Rattle.plan_safety.specs.World.{Nodes, Distinct, Start, Event, first_world};
ghost use Rattle.plan_safety.specs.History.{Step, step, store_of, IsHistory, IsHeld, Installation, installs, refuses};
ghost use Rattle.plan_safety.specs.History.{tally, uploads, final, history};

/// Each plan is empty or exactly that of one installed upload; an upload is installed at most once,
/// while it is its station's latest and was fully transmitted; one reported as "not installed" isn't
/// installed, before or after; one reported as "installed" is.
pub fn every_upload()
    ensures held { (h : List Step) → IsHistory h → (d : Stream) → (kind : ℕ)
        → IsHeld h d kind ((store_of h).plan d kind) }
    ensures once { (h : List Step) → IsHistory h → (s : Stream) → (number : ℕ) → tally installs h s number ≤ 1 }
    ensures never { (h : List Step) → IsHistory h → (s : Stream) → (number : ℕ) → 0 < tally refuses h s number
        → tally installs h s number ≡ 0 }
    ensures installation { (h : List Step) → (sent : List Frame) → (d : Stream) → (kind : ℕ) → (plan : List Item)
        → (s : Stream) → IsHistory (step sent (Installed d kind plan s) ∷ h) → Installation h sent s d kind plan }
    ensures told { (h : List Step) → (sent : List Frame) → (s : Stream)
        → IsHistory (step sent (Ended s Told_installed) ∷ h) → tally installs h s (uploads h s) ≡ 1 }
{}

/// After every execution of the world each drone's plan of each kind is empty, or exactly the plan of
/// one upload to that drone and of that kind, which was installed.
pub fn every_plan()
    ensures { (nodes : Nodes) → Distinct nodes → (start : Start) → (events : List Event) → (d : Stream) → (kind : ℕ)
        → kind < 3 → IsHeld (history nodes (first_world start) [] events) d kind
        (plan_at ((final nodes (first_world start) events).drone d).state.plans kind) }
{}
