// What a plan message does to a drone, and what it would do to its plans.
ghost use Rattle.std.specs.Prelude.{◌≡◌};
ghost use Rattle.plan_upload.specs.Changes.{install_of};
ghost use Rattle.plan_upload.specs.declared.changes.Change.TheVariants.{Same};

use plan_items::{PlanKind, PlanMsg};

/// What a step does to the plans.
#[derive(Clone, Copy)]
pub enum Change {
    Same,
    /// The gathered items become the plan of this kind.
    Install(PlanKind),
    /// The plan of this kind, or with None all three, becomes empty, even if it already is.
    Empty(Option<PlanKind>),
}

/// A step of a drone: its reply, if any, and what it did to the plans.
#[derive(Clone, Copy)]
pub struct DroneStep {
    pub answer: Option<PlanMsg>,
    pub change: Change,
}

/// The change by an install of this kind, if there is one.
pub fn installing(kind: Option<PlanKind>) -> Change
    ensures { result ≡ install_of kind }
{
    match kind {
        Some(kind) => Change::Install(kind),
        None => Change::Same,
    }
}

/// A step that leaves the plans as they are.
pub fn unchanging(answer: Option<PlanMsg>) -> DroneStep
    ensures answer { result.answer ≡ answer }
    ensures change { result.change ≡ Same }
{
    DroneStep {
        answer,
        change: Change::Same,
    }
}
