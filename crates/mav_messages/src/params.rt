// Messages of the parameter protocol (MAVLink common messages; MAVLink guide, Parameter Protocol).
ghost use Rattle.std.specs.Prelude.{◌≡◌, []};
ghost use Rattle.field_layout.specs.Payload.{serialised, FitsLayout, Represents};
ghost use Rattle.mav_profile.specs.Profile.{param_request_read_definition, param_request_list_definition};
ghost use Rattle.mav_profile.specs.Profile.{param_value_definition, param_set_definition};
ghost use Rattle.mav_messages.specs.Values.{param_request_read_values, param_request_list_values, param_value_values};
ghost use Rattle.mav_messages.specs.Values.{param_set_values};

use crate::words::{Padded, bytes_at, i16_at, u8_at, u16_at, u32_at};
use field_layout::Buffer;

/// PARAM_REQUEST_READ: asks for one parameter by its index, or by its id if the index is -1.
#[derive(Clone, Copy)]
pub struct ParamRequestRead {
    pub target_system: u8,
    pub target_component: u8,
    pub param_id: [u8; 16],
    pub param_index: i16,
}

impl ParamRequestRead {
    pub const ID: u32 = 20;

    pub(crate) fn write(&self, payload: &mut Buffer)
        requires { payload.old ≡ [] }
        ensures bytes { payload.new ≡ serialised param_request_read_definition (param_request_read_values self.now) }
        ensures fits { FitsLayout param_request_read_definition (param_request_read_values self.now) }
    {
        payload.put_u16(self.param_index.cast_unsigned());
        payload.put_u8(self.target_system);
        payload.put_u8(self.target_component);
        payload.put_bytes(&self.param_id);
    }

    pub(crate) fn read(payload: &Padded) -> ParamRequestRead
        ensures { Represents param_request_read_definition payload.now (param_request_read_values result) }
    {
        ParamRequestRead {
            param_index: i16_at(payload, 0),
            target_system: u8_at(payload, 2),
            target_component: u8_at(payload, 3),
            param_id: bytes_at(payload, 4),
        }
    }
}

/// PARAM_REQUEST_LIST: asks for all parameters.
#[derive(Clone, Copy)]
pub struct ParamRequestList {
    pub target_system: u8,
    pub target_component: u8,
}

impl ParamRequestList {
    pub const ID: u32 = 21;

    pub(crate) fn write(&self, payload: &mut Buffer)
        requires { payload.old ≡ [] }
        ensures bytes { payload.new ≡ serialised param_request_list_definition (param_request_list_values self.now) }
        ensures fits { FitsLayout param_request_list_definition (param_request_list_values self.now) }
    {
        payload.put_u8(self.target_system);
        payload.put_u8(self.target_component);
    }

    pub(crate) fn read(payload: &Padded) -> ParamRequestList
        ensures { Represents param_request_list_definition payload.now (param_request_list_values result) }
    {
        ParamRequestList {
            target_system: u8_at(payload, 0),
            target_component: u8_at(payload, 1),
        }
    }
}

/// PARAM_VALUE: a parameter, its index and how many there are. The id has 16 bytes, with zeros after a shorter one.
/// The value is the word of the four bytes sent; `param_type` is one of `MavParamType`.
#[derive(Clone, Copy)]
pub struct ParamValue {
    pub param_id: [u8; 16],
    pub param_value: u32,
    pub param_type: u8,
    pub param_count: u16,
    pub param_index: u16,
}

impl ParamValue {
    pub const ID: u32 = 22;

    pub(crate) fn write(&self, payload: &mut Buffer)
        requires { payload.old ≡ [] }
        ensures bytes { payload.new ≡ serialised param_value_definition (param_value_values self.now) }
        ensures fits { FitsLayout param_value_definition (param_value_values self.now) }
    {
        payload.put_u32(self.param_value);
        payload.put_u16(self.param_count);
        payload.put_u16(self.param_index);
        payload.put_bytes(&self.param_id);
        payload.put_u8(self.param_type);
    }

    pub(crate) fn read(payload: &Padded) -> ParamValue
        ensures { Represents param_value_definition payload.now (param_value_values result) }
    {
        ParamValue {
            param_value: u32_at(payload, 0),
            param_count: u16_at(payload, 4),
            param_index: u16_at(payload, 6),
            param_id: bytes_at(payload, 8),
            param_type: u8_at(payload, 24),
        }
    }
}

/// PARAM_SET: sets a parameter. Id, value and type are as in PARAM_VALUE.
#[derive(Clone, Copy)]
pub struct ParamSet {
    pub target_system: u8,
    pub target_component: u8,
    pub param_id: [u8; 16],
    pub param_value: u32,
    pub param_type: u8,
}

impl ParamSet {
    pub const ID: u32 = 23;

    pub(crate) fn write(&self, payload: &mut Buffer)
        requires { payload.old ≡ [] }
        ensures bytes { payload.new ≡ serialised param_set_definition (param_set_values self.now) }
        ensures fits { FitsLayout param_set_definition (param_set_values self.now) }
    {
        payload.put_u32(self.param_value);
        payload.put_u8(self.target_system);
        payload.put_u8(self.target_component);
        payload.put_bytes(&self.param_id);
        payload.put_u8(self.param_type);
    }

    pub(crate) fn read(payload: &Padded) -> ParamSet
        ensures { Represents param_set_definition payload.now (param_set_values result) }
    {
        ParamSet {
            param_value: u32_at(payload, 0),
            target_system: u8_at(payload, 4),
            target_component: u8_at(payload, 5),
            param_id: bytes_at(payload, 6),
            param_type: u8_at(payload, 22),
        }
    }
}
