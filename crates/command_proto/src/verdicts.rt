// Which commands a drone accepts: this project's profile of them.
ghost use Rattle.std.specs.Prelude.{◌≡◌};
ghost use Rattle.command_proto.specs.Executor.{accepts, refuses, arms, verdict_on};

use crate::Ready;
use mav_messages::{CommandLong, MavResult, VehicleCommand};
use plan_items::{Action, MavCommand};

// The first parameter of MAV_CMD_COMPONENT_ARM_DISARM: the words of 1 and of 0.
const ARM: u32 = 0x3F80_0000;

const DISARM: u32 = 0;

/// What becomes of a command: its result, one of `MavResult`, and what the drone does.
#[derive(Clone, Copy)]
pub struct Verdict {
    pub result: u8,
    pub action: Option<Action>,
}

fn accept(action: Action) -> Verdict
    ensures { result ≡ accepts action }
{
    Verdict {
        result: MavResult::ACCEPTED,
        action: Some(action),
    }
}

fn refuse(code: u8) -> Verdict
    ensures { result ≡ refuses code }
{
    Verdict {
        result: code,
        action: None,
    }
}

fn judge_arming(word: u32) -> Verdict
    ensures { result ≡ arms word }
{
    match word {
        ARM => accept(Action::Arm),
        DISARM => accept(Action::Disarm),
        _ => refuse(MavResult::DENIED),
    }
}

pub fn judge(m: &CommandLong, ready: Ready) -> Verdict
    ensures { result ≡ verdict_on m.now ready }
{
    match m.command {
        VehicleCommand::COMPONENT_ARM_DISARM => judge_arming(m.param1),
        VehicleCommand::MISSION_START if ready.armed && ready.planned => accept(Action::Start),
        MavCommand::NAV_RETURN_TO_LAUNCH if ready.armed => accept(Action::Return),
        VehicleCommand::MISSION_START | MavCommand::NAV_RETURN_TO_LAUNCH => {
            refuse(MavResult::DENIED)
        }
        _ => refuse(MavResult::UNSUPPORTED),
    }
}
