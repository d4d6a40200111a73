// The message of file transfer (MAVLink common messages; MAVLink guide, MAVLink FTP).
ghost use Rattle.std.specs.Prelude.{◌≡◌, []};
ghost use Rattle.field_layout.specs.Payload.{serialised, FitsLayout, Represents};
ghost use Rattle.mav_profile.specs.Profile.{file_transfer_protocol_definition};
ghost use Rattle.mav_messages.specs.Values.{file_transfer_protocol_values};

use crate::words::{Padded, bytes_at, u8_at};
use field_layout::Buffer;

/// FILE_TRANSFER_PROTOCOL: a request of MAVLink FTP, or its response.
#[derive(Clone, Copy)]
pub struct FileTransferProtocol {
    pub target_network: u8,
    pub target_system: u8,
    pub target_component: u8,
    pub payload: [u8; 251],
}

impl FileTransferProtocol {
    pub const ID: u32 = 110;

    pub(crate) fn write(&self, payload: &mut Buffer)
        requires { payload.old ≡ [] }
        ensures bytes { payload.new ≡ serialised file_transfer_protocol_definition
            (file_transfer_protocol_values self.now) }
        ensures fits { FitsLayout file_transfer_protocol_definition (file_transfer_protocol_values self.now) }
    {
        payload.put_u8(self.target_network);
        payload.put_u8(self.target_system);
        payload.put_u8(self.target_component);
        payload.put_bytes(&self.payload);
    }

    pub(crate) fn read(payload: &Padded) -> FileTransferProtocol
        ensures { Represents file_transfer_protocol_definition payload.now (file_transfer_protocol_values result) }
    {
        FileTransferProtocol {
            target_network: u8_at(payload, 0),
            target_system: u8_at(payload, 1),
            target_component: u8_at(payload, 2),
            payload: bytes_at(payload, 3),
        }
    }
}
