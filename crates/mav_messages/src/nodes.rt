// Messages of nodes about themselves (MAVLink common messages).
ghost use Rattle.std.specs.Prelude.{◌≡◌, []};
ghost use Rattle.field_layout.specs.Payload.{serialised, FitsLayout, Represents};
ghost use Rattle.mav_profile.specs.Profile.{heartbeat_definition, ping_definition, global_position_int_definition};
ghost use Rattle.mav_profile.specs.Profile.{statustext_definition};
ghost use Rattle.mav_messages.specs.Values.{heartbeat_values, ping_values, global_position_int_values};
ghost use Rattle.mav_messages.specs.Values.{statustext_values};

use crate::words::{Padded, bytes_at, i16_at, i32_at, u8_at, u16_at, u32_at, u64_at};
use field_layout::Buffer;

/// HEARTBEAT: that a node is there, and what it is. `ty`, `autopilot`, `base_mode` and `system_status` have values of
/// `MavType`, `MavAutopilot`, `MavModeFlag` and `MavState`.
#[derive(Clone, Copy)]
pub struct Heartbeat {
    pub ty: u8,
    pub autopilot: u8,
    pub base_mode: u8,
    pub custom_mode: u32,
    pub system_status: u8,
    pub mavlink_version: u8,
}

impl Heartbeat {
    pub const ID: u32 = 0;

    pub(crate) fn write(&self, payload: &mut Buffer)
        requires { payload.old ≡ [] }
        ensures bytes { payload.new ≡ serialised heartbeat_definition (heartbeat_values self.now) }
        ensures fits { FitsLayout heartbeat_definition (heartbeat_values self.now) }
    {
        payload.put_u32(self.custom_mode);
        payload.put_u8(self.ty);
        payload.put_u8(self.autopilot);
        payload.put_u8(self.base_mode);
        payload.put_u8(self.system_status);
        payload.put_u8(self.mavlink_version);
    }

    pub(crate) fn read(payload: &Padded) -> Heartbeat
        ensures { Represents heartbeat_definition payload.now (heartbeat_values result) }
    {
        Heartbeat {
            custom_mode: u32_at(payload, 0),
            ty: u8_at(payload, 4),
            autopilot: u8_at(payload, 5),
            base_mode: u8_at(payload, 6),
            system_status: u8_at(payload, 7),
            mavlink_version: u8_at(payload, 8),
        }
    }
}

/// PING: a request if the target is 0, 0, and else the reply to it. `time_usec` is in microseconds.
#[derive(Clone, Copy)]
pub struct Ping {
    pub time_usec: u64,
    pub seq: u32,
    pub target_system: u8,
    pub target_component: u8,
}

impl Ping {
    pub const ID: u32 = 4;

    pub(crate) fn write(&self, payload: &mut Buffer)
        requires { payload.old ≡ [] }
        ensures bytes { payload.new ≡ serialised ping_definition (ping_values self.now) }
        ensures fits { FitsLayout ping_definition (ping_values self.now) }
    {
        payload.put_u64(self.time_usec);
        payload.put_u32(self.seq);
        payload.put_u8(self.target_system);
        payload.put_u8(self.target_component);
    }

    pub(crate) fn read(payload: &Padded) -> Ping
        ensures { Represents ping_definition payload.now (ping_values result) }
    {
        Ping {
            time_usec: u64_at(payload, 0),
            seq: u32_at(payload, 8),
            target_system: u8_at(payload, 12),
            target_component: u8_at(payload, 13),
        }
    }
}

/// GLOBAL_POSITION_INT: the position of a node. `lat` and `lon` are in degrees times 10^7, altitudes in millimetres,
/// speeds in centimetres a second, `hdg` in hundredths of a degree.
#[derive(Clone, Copy)]
pub struct GlobalPositionInt {
    pub time_boot_ms: u32,
    pub lat: i32,
    pub lon: i32,
    pub alt: i32,
    pub relative_alt: i32,
    pub vx: i16,
    pub vy: i16,
    pub vz: i16,
    pub hdg: u16,
}

impl GlobalPositionInt {
    pub const ID: u32 = 33;

    pub(crate) fn write(&self, payload: &mut Buffer)
        requires { payload.old ≡ [] }
        ensures bytes { payload.new ≡ serialised global_position_int_definition (global_position_int_values self.now) }
        ensures fits { FitsLayout global_position_int_definition (global_position_int_values self.now) }
    {
        payload.put_u32(self.time_boot_ms);
        payload.put_u32(self.lat.cast_unsigned());
        payload.put_u32(self.lon.cast_unsigned());
        payload.put_u32(self.alt.cast_unsigned());
        payload.put_u32(self.relative_alt.cast_unsigned());
        payload.put_u16(self.vx.cast_unsigned());
        payload.put_u16(self.vy.cast_unsigned());
        payload.put_u16(self.vz.cast_unsigned());
        payload.put_u16(self.hdg);
    }

    pub(crate) fn read(payload: &Padded) -> GlobalPositionInt
        ensures { Represents global_position_int_definition payload.now (global_position_int_values result) }
    {
        GlobalPositionInt {
            time_boot_ms: u32_at(payload, 0),
            lat: i32_at(payload, 4),
            lon: i32_at(payload, 8),
            alt: i32_at(payload, 12),
            relative_alt: i32_at(payload, 16),
            vx: i16_at(payload, 20),
            vy: i16_at(payload, 22),
            vz: i16_at(payload, 24),
            hdg: u16_at(payload, 26),
        }
    }
}

/// STATUSTEXT: a text for people, with zeros after it.
#[derive(Clone, Copy)]
pub struct Statustext {
    pub severity: u8,
    pub text: [u8; 50],
    pub id: u16,
    pub chunk_seq: u8,
}

impl Statustext {
    pub const ID: u32 = 253;

    pub(crate) fn write(&self, payload: &mut Buffer)
        requires { payload.old ≡ [] }
        ensures bytes { payload.new ≡ serialised statustext_definition (statustext_values self.now) }
        ensures fits { FitsLayout statustext_definition (statustext_values self.now) }
    {
        payload.put_u8(self.severity);
        payload.put_bytes(&self.text);
        payload.put_u16(self.id);
        payload.put_u8(self.chunk_seq);
    }

    pub(crate) fn read(payload: &Padded) -> Statustext
        ensures { Represents statustext_definition payload.now (statustext_values result) }
    {
        Statustext {
            severity: u8_at(payload, 0),
            text: bytes_at(payload, 1),
            id: u16_at(payload, 51),
            chunk_seq: u8_at(payload, 53),
        }
    }
}
