// A drone's parameters at its start.
ghost use Rattle.std.specs.Prelude.{◌≡◌, ◌<◌, ◌++◌, OnOk, IfOk};
ghost use Rattle.std.specs.Int.{w32, cast_unsigned};
ghost use Rattle.mav_nodes.specs.Services.{user_param, user_params_from, drone_params};

use crate::NoMemory;
use mav_messages::MavParamType;
use param_proto::Param;
use std::alloc::Global;

// Parameters that users may set to what they like: SIM_USER_01 to SIM_USER_36.
const USERS: u8 = 36;

/// The parameter of the step of a drone's simulator.
pub(crate) const STEP: [u8; 16] = *b"SIM_STEP\0\0\0\0\0\0\0\0";

const HOME_X: [u8; 16] = *b"SIM_HOME_X\0\0\0\0\0\0";

const HOME_Y: [u8; 16] = *b"SIM_HOME_Y\0\0\0\0\0\0";

const NAME: [u8; 16] = *b"SIM_NAME\0\0\0\0\0\0\0\0";

fn user_param(number: u8) -> Param
    requires { number < 100 }
    ensures { result ≡ user_param number }
{
    let mut id = *b"SIM_USER_\0\0\0\0\0\0\0";
    id[9] = b'0' + number / 10;
    id[10] = b'0' + number % 10;
    Param {
        id,
        ty: MavParamType::UINT32,
        word: 0,
    }
}

fn int_param(id: [u8; 16], number: i32) -> Param
    ensures { result ≡ record { id = id; ty = 6; word = cast_unsigned w32 number } }
{
    Param {
        id,
        ty: MavParamType::INT32,
        word: number.cast_unsigned(),
    }
}

/// The parameters of a drone whose home is at x and y, in units of 1e-7 degrees: the step of its simulator, its home,
/// its name, and what users keep.
pub(crate) fn drone_params(alloc: Global, x: i32, y: i32) -> Result<Vec<Param>, NoMemory>
    ensures { IfOk result (λ params. params.items ≡ drone_params (record { x = x; y = y })) }
{
    let name = Param {
        id: NAME,
        ty: MavParamType::UINT32,
        word: 0,
    };
    let first = [
        int_param(STEP, 1_000),
        int_param(HOME_X, x),
        int_param(HOME_Y, y),
        name,
    ];
    let mut params = Vec::from_array(alloc, first)?;
    push_users(&mut params)?;
    Ok(params)
}

fn push_users(params: &mut Vec<Param>) -> Result<(), NoMemory>
    ensures { OnOk result (params.new.items ≡ params.old.items ++ user_params_from 36 1) }
{
    let mut number = 1;
    while number <= USERS {
        params.push(user_param(number))?;
        number += 1;
    }
    Ok(())
}
