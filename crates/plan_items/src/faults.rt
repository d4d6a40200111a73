// Why an item or a plan isn't valid.
ghost use Rattle.std.specs.Prelude.{◌≡◌};
ghost use Rattle.plan_items.specs.Validation.{code_of};

use crate::MissionResult;

/// Why an item or a plan isn't valid, in the order of the tests.
#[derive(Clone, Copy)]
pub enum PlanFault {
    /// A frame that the kind of plan doesn't have, or that the command can't have.
    UnsupportedFrame,
    /// A command that the kind of plan doesn't have.
    Unsupported,
    /// A latitude beyond 90 degrees.
    InvalidX,
    /// A longitude beyond 180 degrees.
    InvalidY,
    /// A polygon vertex whose param1 isn't a number of vertices.
    InvalidParam1,
    /// A fence with a polygon that lacks vertices or mixes them with others.
    Invalid,
}

/// The result code that a drone sends for the fault, one of `MissionResult`.
pub fn code(fault: PlanFault) -> u8
    ensures { result ≡ code_of fault }
{
    match fault {
        PlanFault::UnsupportedFrame => MissionResult::UNSUPPORTED_FRAME,
        PlanFault::Unsupported => MissionResult::UNSUPPORTED,
        PlanFault::InvalidX => MissionResult::INVALID_X,
        PlanFault::InvalidY => MissionResult::INVALID_Y,
        PlanFault::InvalidParam1 => MissionResult::INVALID_PARAM1,
        PlanFault::Invalid => MissionResult::INVALID,
    }
}
