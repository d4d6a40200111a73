// The drone's side of file transfer.
ghost use Rattle.std.specs.Prelude.{◌≡◌, ◌≤◌, length, IfOk, IfSome, OnOk, OnErr};
ghost use Rattle.std.specs.Option.{option_map};
ghost use Rattle.mav_ftp.specs.Payload.{most_file};
ghost use Rattle.mav_ftp.specs.Server.{no_files, file_named, reply_to, files_after};

use crate::NoMemory;
use crate::exchanges::{Exchange, Exchanges};
use crate::payload::{FtpError, FtpFields, sized_data};
use crate::replies::nak;
use crate::storage::Storage;
use mav_names::Stream;
use std::alloc::Global;
use std::marker::Model;

/// Serves at most 64 files of at most 1,048,576 bytes to at most 256 streams, in four sessions (MAVLink guide, File
/// Transfer Protocol). A request that is equal in all bytes to its stream's last one gets the same reply again.
#[derive(Drop)]
pub struct FtpServer {
    storage: Storage,
    exchanges: Exchanges,
}

impl Model for FtpServer {
    ghost use Rattle.mav_ftp.specs.Server.{FilesState};

    ghost Value = { FilesState };

    ghost view = { λ s. record { files = s.storage.files; sessions = s.storage.sessions; exchanges = s.exchanges } };
}

impl FtpServer {
    /// A server without files. Allocates all that the tables of files and of streams will need.
    pub fn new(alloc: Global) -> Result<FtpServer, NoMemory>
        ensures { IfOk result (λ s. s ≡ no_files) }
    {
        let exchanges = Exchanges::new(alloc)?;
        let storage = Storage::new(alloc)?;
        Ok(FtpServer { storage, exchanges })
    }

    /// The bytes of a file. A file that is being written is none yet.
    pub fn file(&self, name: &[u8]) -> Option<&[u8]>
        ensures bytes { option_map (λ b. b.now) result ≡ file_named self.now name.now }
        ensures few { IfSome result (λ b. length b.now ≤ most_file) }
    {
        self.storage.file(name)
    }

    /// One request of a stream, and the reply to it. Want of memory arises only where a session is opened to read, or
    /// bytes are written.
    pub fn step(&mut self, from: Stream, payload: &[u8; 251]) -> Result<[u8; 251], NoMemory>
        ensures state { OnOk result (self.new ≡ files_after self.old from payload.now) }
        ensures reply { IfOk result (λ r. r ≡ reply_to self.old from payload.now) }
        ensures err { OnErr result (self.new ≡ self.old) }
    {
        if let Some(reply) = self.exchanges.reply(from, payload) {
            return Ok(reply);
        }
        let request = FtpFields::read(payload);
        if self.exchanges.is_full_for(from) {
            return Ok(nak(&request, FtpError::FAIL));
        }
        let reply = self.storage.step(from, &request, sized_data(payload))?;
        self.exchanges.set(Exchange {
            stream: from,
            request: *payload,
            reply,
        });
        Ok(reply)
    }
}
