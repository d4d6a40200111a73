// Messages of file transfer, and a drone's side of it.
ghost use Rattle.std.specs.Prelude.{◌≡◌, ◌++◌, OnOk};
ghost use Rattle.mav_nodes.specs.FileServices.{file_message, target_of, files_step};

use crate::NoMemory;
use crate::services::reply;
use mav_ftp::FtpServer;
use mav_messages::{FileTransferProtocol, Message};
use mav_names::{Name, Stream, is_for};

/// A payload for the node of a stream.
pub(crate) fn file_message(to: Stream, payload: [u8; 251]) -> Message
    ensures { result ≡ file_message to payload }
{
    Message::FileTransferProtocol(FileTransferProtocol {
        target_network: 0,
        target_system: to.sys,
        target_component: to.comp,
        payload,
    })
}

/// The node that a payload is for.
pub(crate) fn target_of(message: &FileTransferProtocol) -> Name
    ensures { result ≡ target_of message.now }
{
    Name {
        sys: message.target_system,
        comp: message.target_component,
    }
}

/// The reply to a request that is for this node, after other answers.
pub(crate) fn serve_files(
    server: &mut FtpServer,
    me: Name,
    from: Stream,
    message: &Message,
    answers: &mut Vec<Message>,
) -> Result<(), NoMemory>
    ensures files { OnOk result (server.new ≡ (files_step server.old me from message.now).files) }
    ensures answers { OnOk result (answers.new.items ≡ answers.old.items
        ++ (files_step server.old me from message.now).answers) }
{
    let Message::FileTransferProtocol(request) = message else {
        return Ok(());
    };
    if !is_for(me, target_of(request)) {
        return Ok(());
    }
    let payload = server.step(from, &request.payload)?;
    reply(answers, file_message(from, payload))
}
