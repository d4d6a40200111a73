// Messages of the mission protocol (MAVLink common messages; MAVLink guide, Mission Protocol).
ghost use Rattle.std.specs.Prelude.{◌≡◌, []};
ghost use Rattle.field_layout.specs.Payload.{serialised, FitsLayout, Represents};
ghost use Rattle.mav_profile.specs.Profile.{mission_current_definition, mission_request_list_definition};
ghost use Rattle.mav_profile.specs.Profile.{mission_count_definition, mission_clear_all_definition};
ghost use Rattle.mav_profile.specs.Profile.{mission_item_reached_definition, mission_ack_definition};
ghost use Rattle.mav_profile.specs.Profile.{mission_request_int_definition};
ghost use Rattle.mav_messages.specs.Values.{mission_current_values, mission_request_list_values, mission_count_values};
ghost use Rattle.mav_messages.specs.Values.{mission_clear_all_values, mission_item_reached_values, mission_ack_values};
ghost use Rattle.mav_messages.specs.Values.{mission_request_int_values};

use crate::words::{Padded, u8_at, u16_at};
use field_layout::Buffer;

/// MISSION_CURRENT: the number of the current item.
#[derive(Clone, Copy)]
pub struct MissionCurrent {
    pub seq: u16,
}

impl MissionCurrent {
    pub const ID: u32 = 42;

    pub(crate) fn write(&self, payload: &mut Buffer)
        requires { payload.old ≡ [] }
        ensures bytes { payload.new ≡ serialised mission_current_definition (mission_current_values self.now) }
        ensures fits { FitsLayout mission_current_definition (mission_current_values self.now) }
    {
        payload.put_u16(self.seq);
    }

    pub(crate) fn read(payload: &Padded) -> MissionCurrent
        ensures { Represents mission_current_definition payload.now (mission_current_values result) }
    {
        MissionCurrent {
            seq: u16_at(payload, 0),
        }
    }
}

/// MISSION_REQUEST_LIST: asks for the number of items of a plan.
#[derive(Clone, Copy)]
pub struct MissionRequestList {
    pub target_system: u8,
    pub target_component: u8,
    pub mission_type: u8,
}

impl MissionRequestList {
    pub const ID: u32 = 43;

    pub(crate) fn write(&self, payload: &mut Buffer)
        requires { payload.old ≡ [] }
        ensures bytes { payload.new ≡ serialised mission_request_list_definition
            (mission_request_list_values self.now) }
        ensures fits { FitsLayout mission_request_list_definition (mission_request_list_values self.now) }
    {
        payload.put_u8(self.target_system);
        payload.put_u8(self.target_component);
        payload.put_u8(self.mission_type);
    }

    pub(crate) fn read(payload: &Padded) -> MissionRequestList
        ensures { Represents mission_request_list_definition payload.now (mission_request_list_values result) }
    {
        MissionRequestList {
            target_system: u8_at(payload, 0),
            target_component: u8_at(payload, 1),
            mission_type: u8_at(payload, 2),
        }
    }
}

/// MISSION_COUNT: begins an upload, or responds to MISSION_REQUEST_LIST.
#[derive(Clone, Copy)]
pub struct MissionCount {
    pub target_system: u8,
    pub target_component: u8,
    pub count: u16,
    pub mission_type: u8,
}

impl MissionCount {
    pub const ID: u32 = 44;

    pub(crate) fn write(&self, payload: &mut Buffer)
        requires { payload.old ≡ [] }
        ensures bytes { payload.new ≡ serialised mission_count_definition (mission_count_values self.now) }
        ensures fits { FitsLayout mission_count_definition (mission_count_values self.now) }
    {
        payload.put_u16(self.count);
        payload.put_u8(self.target_system);
        payload.put_u8(self.target_component);
        payload.put_u8(self.mission_type);
    }

    pub(crate) fn read(payload: &Padded) -> MissionCount
        ensures { Represents mission_count_definition payload.now (mission_count_values result) }
    {
        MissionCount {
            count: u16_at(payload, 0),
            target_system: u8_at(payload, 2),
            target_component: u8_at(payload, 3),
            mission_type: u8_at(payload, 4),
        }
    }
}

/// MISSION_CLEAR_ALL: clears a plan, or all if the type is `PlanKind::ALL`.
#[derive(Clone, Copy)]
pub struct MissionClearAll {
    pub target_system: u8,
    pub target_component: u8,
    pub mission_type: u8,
}

impl MissionClearAll {
    pub const ID: u32 = 45;

    pub(crate) fn write(&self, payload: &mut Buffer)
        requires { payload.old ≡ [] }
        ensures bytes { payload.new ≡ serialised mission_clear_all_definition (mission_clear_all_values self.now) }
        ensures fits { FitsLayout mission_clear_all_definition (mission_clear_all_values self.now) }
    {
        payload.put_u8(self.target_system);
        payload.put_u8(self.target_component);
        payload.put_u8(self.mission_type);
    }

    pub(crate) fn read(payload: &Padded) -> MissionClearAll
        ensures { Represents mission_clear_all_definition payload.now (mission_clear_all_values result) }
    {
        MissionClearAll {
            target_system: u8_at(payload, 0),
            target_component: u8_at(payload, 1),
            mission_type: u8_at(payload, 2),
        }
    }
}

/// MISSION_ITEM_REACHED: the number of an item that was reached.
#[derive(Clone, Copy)]
pub struct MissionItemReached {
    pub seq: u16,
}

impl MissionItemReached {
    pub const ID: u32 = 46;

    pub(crate) fn write(&self, payload: &mut Buffer)
        requires { payload.old ≡ [] }
        ensures bytes { payload.new ≡ serialised mission_item_reached_definition
            (mission_item_reached_values self.now) }
        ensures fits { FitsLayout mission_item_reached_definition (mission_item_reached_values self.now) }
    {
        payload.put_u16(self.seq);
    }

    pub(crate) fn read(payload: &Padded) -> MissionItemReached
        ensures { Represents mission_item_reached_definition payload.now (mission_item_reached_values result) }
    {
        MissionItemReached {
            seq: u16_at(payload, 0),
        }
    }
}

/// MISSION_ACK: ends an upload, a download or a clear. `ty` is one of `MissionResult`.
#[derive(Clone, Copy)]
pub struct MissionAck {
    pub target_system: u8,
    pub target_component: u8,
    pub ty: u8,
    pub mission_type: u8,
}

impl MissionAck {
    pub const ID: u32 = 47;

    pub(crate) fn write(&self, payload: &mut Buffer)
        requires { payload.old ≡ [] }
        ensures bytes { payload.new ≡ serialised mission_ack_definition (mission_ack_values self.now) }
        ensures fits { FitsLayout mission_ack_definition (mission_ack_values self.now) }
    {
        payload.put_u8(self.target_system);
        payload.put_u8(self.target_component);
        payload.put_u8(self.ty);
        payload.put_u8(self.mission_type);
    }

    pub(crate) fn read(payload: &Padded) -> MissionAck
        ensures { Represents mission_ack_definition payload.now (mission_ack_values result) }
    {
        MissionAck {
            target_system: u8_at(payload, 0),
            target_component: u8_at(payload, 1),
            ty: u8_at(payload, 2),
            mission_type: u8_at(payload, 3),
        }
    }
}

/// MISSION_REQUEST_INT: asks for an item.
#[derive(Clone, Copy)]
pub struct MissionRequestInt {
    pub target_system: u8,
    pub target_component: u8,
    pub seq: u16,
    pub mission_type: u8,
}

impl MissionRequestInt {
    pub const ID: u32 = 51;

    pub(crate) fn write(&self, payload: &mut Buffer)
        requires { payload.old ≡ [] }
        ensures bytes { payload.new ≡ serialised mission_request_int_definition (mission_request_int_values self.now) }
        ensures fits { FitsLayout mission_request_int_definition (mission_request_int_values self.now) }
    {
        payload.put_u16(self.seq);
        payload.put_u8(self.target_system);
        payload.put_u8(self.target_component);
        payload.put_u8(self.mission_type);
    }

    pub(crate) fn read(payload: &Padded) -> MissionRequestInt
        ensures { Represents mission_request_int_definition payload.now (mission_request_int_values result) }
    {
        MissionRequestInt {
            seq: u16_at(payload, 0),
            target_system: u8_at(payload, 2),
            target_component: u8_at(payload, 3),
            mission_type: u8_at(payload, 4),
        }
    }
}
