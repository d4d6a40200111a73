// The messages of the protocol, as each side sends them.
ghost use Rattle.std.specs.Prelude.{◌≡◌};
ghost use Rattle.param_proto.specs.Server.{value_message};
ghost use Rattle.param_proto.specs.Client.{read_message, set_message, list_message, param_in};

use crate::Param;
use mav_messages::{Message, ParamRequestList, ParamRequestRead, ParamSet, ParamValue};
use mav_names::Stream;

// Of a read by index.
pub const NO_ID: [u8; 16] = [0; 16];

pub fn value_of(count: u16, index: u16, param: Param) -> Message
    ensures { result ≡ value_message count index param }
{
    let id = param.id;
    Message::ParamValue(ParamValue {
        param_id: id,
        param_value: param.word,
        param_type: param.ty,
        param_count: count,
        param_index: index,
    })
}

pub fn read_of(drone: Stream, id: [u8; 16], index: i16) -> Message
    ensures { result ≡ read_message drone id index }
{
    Message::ParamRequestRead(ParamRequestRead {
        target_system: drone.sys,
        target_component: drone.comp,
        param_id: id,
        param_index: index,
    })
}

pub fn set_of(drone: Stream, param: Param) -> Message
    ensures { result ≡ set_message drone param }
{
    let id = param.id;
    Message::ParamSet(ParamSet {
        target_system: drone.sys,
        target_component: drone.comp,
        param_id: id,
        param_value: param.word,
        param_type: param.ty,
    })
}

pub fn list_of(drone: Stream) -> Message
    ensures { result ≡ list_message drone }
{
    Message::ParamRequestList(ParamRequestList {
        target_system: drone.sys,
        target_component: drone.comp,
    })
}

pub fn param_in(value: &ParamValue) -> Param
    ensures { result ≡ param_in value.now }
{
    let id = value.param_id;
    Param {
        id,
        ty: value.param_type,
        word: value.param_value,
    }
}
