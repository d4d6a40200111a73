// Replies to a request.
ghost use Rattle.std.specs.Prelude.{◌≡◌, ◌≤◌, length};
ghost use Rattle.mav_ftp.specs.Payload.{most_data};
ghost use Rattle.mav_ftp.specs.Replies.{reply_of, ack_of, nak_of};

use crate::payload::{FtpFields, FtpOpcode};

fn reply(request: &FtpFields, opcode: u8, session: u8, bytes: &[u8]) -> [u8; 251]
    requires { length bytes.now ≤ most_data }
    ensures { result ≡ reply_of request.now opcode session bytes.now }
{
    let fields = FtpFields {
        seq: request.seq.wrapping_add(1),
        session,
        opcode,
        size: bytes.len() as u8,
        req_opcode: request.opcode,
        offset: request.offset,
    };
    fields.payload(bytes)
}

pub fn ack(request: &FtpFields, session: u8, bytes: &[u8]) -> [u8; 251]
    requires { length bytes.now ≤ most_data }
    ensures { result ≡ ack_of request.now session bytes.now }
{
    reply(request, FtpOpcode::ACK, session, bytes)
}

pub fn nak(request: &FtpFields, error: u8) -> [u8; 251]
    ensures { result ≡ nak_of request.now error }
{
    reply(request, FtpOpcode::NAK, request.session, &[error])
}
