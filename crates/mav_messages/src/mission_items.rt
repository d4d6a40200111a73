// The message that carries an item of a plan (MAVLink common messages; MAVLink guide, Mission Protocol).
ghost use Rattle.std.specs.Prelude.{◌≡◌, []};
ghost use Rattle.field_layout.specs.Payload.{serialised, FitsLayout, Represents};
ghost use Rattle.mav_profile.specs.Profile.{mission_item_int_definition};
ghost use Rattle.mav_messages.specs.Values.{mission_item_int_values};

use crate::words::{Padded, i32_at, u8_at, u16_at, u32_at};
use field_layout::Buffer;

/// MISSION_ITEM_INT: an item of a plan. `x` and `y` are latitude and longitude in degrees times 10^7; the parameters
/// and `z` are words of floats.
#[derive(Clone, Copy)]
pub struct MissionItemInt {
    pub target_system: u8,
    pub target_component: u8,
    pub seq: u16,
    pub frame: u8,
    pub command: u16,
    pub current: u8,
    pub autocontinue: u8,
    pub param1: u32,
    pub param2: u32,
    pub param3: u32,
    pub param4: u32,
    pub x: i32,
    pub y: i32,
    pub z: u32,
    pub mission_type: u8,
}

impl MissionItemInt {
    pub const ID: u32 = 73;

    pub(crate) fn write(&self, payload: &mut Buffer)
        requires { payload.old ≡ [] }
        ensures bytes { payload.new ≡ serialised mission_item_int_definition (mission_item_int_values self.now) }
        ensures fits { FitsLayout mission_item_int_definition (mission_item_int_values self.now) }
    {
        payload.put_u32(self.param1);
        payload.put_u32(self.param2);
        payload.put_u32(self.param3);
        payload.put_u32(self.param4);
        payload.put_u32(self.x.cast_unsigned());
        payload.put_u32(self.y.cast_unsigned());
        payload.put_u32(self.z);
        payload.put_u16(self.seq);
        payload.put_u16(self.command);
        payload.put_u8(self.target_system);
        payload.put_u8(self.target_component);
        payload.put_u8(self.frame);
        payload.put_u8(self.current);
        payload.put_u8(self.autocontinue);
        payload.put_u8(self.mission_type);
    }

    pub(crate) fn read(payload: &Padded) -> MissionItemInt
        ensures { Represents mission_item_int_definition payload.now (mission_item_int_values result) }
    {
        MissionItemInt {
            param1: u32_at(payload, 0),
            param2: u32_at(payload, 4),
            param3: u32_at(payload, 8),
            param4: u32_at(payload, 12),
            x: i32_at(payload, 16),
            y: i32_at(payload, 20),
            z: u32_at(payload, 24),
            seq: u16_at(payload, 28),
            command: u16_at(payload, 30),
            target_system: u8_at(payload, 32),
            target_component: u8_at(payload, 33),
            frame: u8_at(payload, 34),
            current: u8_at(payload, 35),
            autocontinue: u8_at(payload, 36),
            mission_type: u8_at(payload, 37),
        }
    }
}
