// Messages of the command protocol (MAVLink common messages; MAVLink guide, Command Protocol).
ghost use Rattle.std.specs.Prelude.{◌≡◌, []};
ghost use Rattle.field_layout.specs.Payload.{serialised, FitsLayout, Represents};
ghost use Rattle.mav_profile.specs.Profile.{command_long_definition, command_ack_definition};
ghost use Rattle.mav_messages.specs.Values.{command_long_values, command_ack_values};

use crate::words::{Padded, i32_at, u8_at, u16_at, u32_at};
use field_layout::Buffer;

/// COMMAND_LONG: a command with seven parameters, each the word of a float. `confirmation` counts its repetitions.
#[derive(Clone, Copy)]
pub struct CommandLong {
    pub target_system: u8,
    pub target_component: u8,
    pub command: u16,
    pub confirmation: u8,
    pub param1: u32,
    pub param2: u32,
    pub param3: u32,
    pub param4: u32,
    pub param5: u32,
    pub param6: u32,
    pub param7: u32,
}

impl CommandLong {
    pub const ID: u32 = 76;

    pub(crate) fn write(&self, payload: &mut Buffer)
        requires { payload.old ≡ [] }
        ensures bytes { payload.new ≡ serialised command_long_definition (command_long_values self.now) }
        ensures fits { FitsLayout command_long_definition (command_long_values self.now) }
    {
        payload.put_u32(self.param1);
        payload.put_u32(self.param2);
        payload.put_u32(self.param3);
        payload.put_u32(self.param4);
        payload.put_u32(self.param5);
        payload.put_u32(self.param6);
        payload.put_u32(self.param7);
        payload.put_u16(self.command);
        payload.put_u8(self.target_system);
        payload.put_u8(self.target_component);
        payload.put_u8(self.confirmation);
    }

    pub(crate) fn read(payload: &Padded) -> CommandLong
        ensures { Represents command_long_definition payload.now (command_long_values result) }
    {
        CommandLong {
            param1: u32_at(payload, 0),
            param2: u32_at(payload, 4),
            param3: u32_at(payload, 8),
            param4: u32_at(payload, 12),
            param5: u32_at(payload, 16),
            param6: u32_at(payload, 20),
            param7: u32_at(payload, 24),
            command: u16_at(payload, 28),
            target_system: u8_at(payload, 30),
            target_component: u8_at(payload, 31),
            confirmation: u8_at(payload, 32),
        }
    }
}

/// COMMAND_ACK: the result of a command, one of `MavResult`.
#[derive(Clone, Copy)]
pub struct CommandAck {
    pub command: u16,
    pub result: u8,
    pub progress: u8,
    pub result_param2: i32,
    pub target_system: u8,
    pub target_component: u8,
}

impl CommandAck {
    pub const ID: u32 = 77;

    pub(crate) fn write(&self, payload: &mut Buffer)
        requires { payload.old ≡ [] }
        ensures bytes { payload.new ≡ serialised command_ack_definition (command_ack_values self.now) }
        ensures fits { FitsLayout command_ack_definition (command_ack_values self.now) }
    {
        payload.put_u16(self.command);
        payload.put_u8(self.result);
        payload.put_u8(self.progress);
        payload.put_u32(self.result_param2.cast_unsigned());
        payload.put_u8(self.target_system);
        payload.put_u8(self.target_component);
    }

    pub(crate) fn read(payload: &Padded) -> CommandAck
        ensures { Represents command_ack_definition payload.now (command_ack_values result) }
    {
        CommandAck {
            command: u16_at(payload, 0),
            result: u8_at(payload, 2),
            progress: u8_at(payload, 3),
            result_param2: i32_at(payload, 4),
            target_system: u8_at(payload, 8),
            target_component: u8_at(payload, 9),
        }
    }
}
