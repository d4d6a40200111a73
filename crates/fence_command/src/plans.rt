// The plans of a file that was read to its end.
ghost use Rattle.std.specs.Prelude.{◌≡◌};
ghost use Rattle.std.specs.Result.{result_err};
ghost use Rattle.plan_items.specs.Kinds.{number_of};
ghost use Rattle.plan_items.specs.Plans.{items_of};
ghost use Rattle.run_status.specs.Runs.{end_of};
ghost use Rattle.fence_command.specs.Files.{state_of};
ghost use Rattle.fence_command.specs.Spec.{is_sound as plan_is_sound, plans_stop};

use crate::FenceFile;
use plan_items::{Plan, PlanKind, check_plan};
use run_status::{InputError, Place, Reason, RunEnd};

const BAD_FENCE: RunEnd = RunEnd::Stopped(InputError::Bad(Place::Fence, Reason::Plan));

const BAD_MISSION: RunEnd = RunEnd::Stopped(InputError::Bad(Place::Mission, Reason::Plan));

// It is empty or valid.
fn is_sound(kind: PlanKind, plan: &Plan) -> bool
    ensures { result ≡ plan_is_sound (number_of kind) (items_of plan.now) }
{
    plan.len() <= usize::from(kind.limit()) && check_plan(kind, plan).is_ok()
}

/// The fence and the mission are empty or valid.
pub(crate) fn check_plans(file: &FenceFile) -> Result<(), RunEnd>
    ensures { result_err result ≡ end_of (plans_stop (state_of file.now)) }
{
    if !is_sound(PlanKind::Fence, &file.fence) {
        return Err(BAD_FENCE);
    }
    if !is_sound(PlanKind::Mission, &file.mission) {
        return Err(BAD_MISSION);
    }
    Ok(())
}
